//! What a verb answers that made a store.
use cs_schema::{Catalog, Loss};
use cs_store::FileSet;

/// A store that was made.
#[derive(Drop)]
pub struct NewStore {
    /// The catalog of the store.
    pub catalog: Catalog,
    /// How many rows the table has.
    pub rows: usize,
    /// The files that were written, without the catalog.
    pub files: FileSet,
    /// The greatest number of sites of which any may fail.
    pub k: u8,
    /// The first of the least losses that must not come.
    pub fatal: Loss,
}
