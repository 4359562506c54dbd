//! Why rows make no store.

use cs_csv::CsvFault;
use cs_schema::Value;

/// Two rows with the same primary key. Rows are counted from 0.
#[derive(Drop)]
pub struct Repeat {
    pub first: usize,
    pub again: usize,
    pub key: Value,
}

/// The range of a segment that has more than 1,048,576 rows.
#[derive(Drop)]
pub struct FullRange {
    pub p: u16,
    pub s: u16,
    /// How many rows it has.
    pub rows: usize,
    /// At which value to cut the projection, so that just what fits comes before; none if too many rows have the least value.
    pub cut: Option<Value>,
}

/// Why a text makes no store.
#[derive(Drop)]
pub enum LoadFault {
    /// Out of memory. It may take the place of any other answer.
    Memory,
    /// The catalog's sites do not have every column even if none is lost.
    Unsafe,
    /// The first fault of the text.
    Text(CsvFault),
    /// A repeated primary key: the first row with the key of an earlier one.
    Twice(Repeat),
    /// The first range with too many rows.
    Full(FullRange),
}
