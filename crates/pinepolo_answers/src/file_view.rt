//! One file of a store.
use cs_file_decode::FileReport;
use cs_schema::{Catalog, FileName};

/// What is said of one file of a store.
#[derive(Drop)]
pub struct FileView {
    /// The catalog of the store.
    pub catalog: Catalog,
    /// The name of the file.
    pub name: FileName,
    /// What its bytes say.
    pub report: FileReport,
}
