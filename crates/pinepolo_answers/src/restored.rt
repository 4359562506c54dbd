//! What a restore answers that was not refused.
use cs_restore::Step;
use cs_schema::{Catalog, Loss};

/// A store that was restored, or what a restore would do.
#[derive(Drop)]
pub struct Restored {
    /// The catalog of the store.
    pub catalog: Catalog,
    /// The sites that were lost.
    pub lost: Loss,
    /// How many rows the store has; none where nothing was done.
    pub rows: Option<u64>,
    /// The greatest number of sites of which any may fail.
    pub k: u8,
    /// What became of each rebuilt file.
    pub steps: Vec<Step>,
    /// The N of `replaced/N`, where old files are kept there.
    pub kept: Option<u32>,
}
