//! What a recovery answers.
use cs_schema::{Catalog, Loss};
use cs_store::FileSet;

/// What a recovery wrote.
#[derive(Drop)]
pub struct Recovered {
    /// The catalog of the store.
    pub catalog: Catalog,
    /// The sites that were lost.
    pub lost: Loss,
    /// The files that were written.
    pub files: FileSet,
}
