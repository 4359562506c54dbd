//! What is wanted of a store's table, and the answer.
use cs_schema::Cells;
use cs_store::FileSet;

/// What is wanted of the table.
#[derive(Clone, Copy)]
pub enum Wanted {
    /// The files that recover it.
    Files,
    /// The number of its rows.
    Count,
    /// Its rows by primary key.
    Columns,
}

/// An answer. Its variant has the name of what was wanted.
#[derive(Drop)]
pub enum Answer {
    /// The files that recover the table.
    Files(FileSet),
    /// The number of its rows.
    Count(u64),
    /// Its rows by primary key, a column of cells for each of its columns.
    Columns(Vec<Cells>),
}
