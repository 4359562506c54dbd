//! The limits of the format, each stated once.

/// The most sites of a catalog. Sites are numbered from 1.
pub const SITES: u8 = 16;

/// The most columns of a table, and so of a projection.
pub const COLUMNS: usize = 32;

/// The most projections of a catalog.
pub const PROJECTIONS: usize = 8;

/// The most sort columns of a projection.
pub const SORT_COLUMNS: usize = 4;

/// The most cuts of a projection. It has one segment more than cuts.
pub const CUTS: usize = 15;

/// The most bytes of the name of a table, a column or a projection.
pub const NAME_BYTES: usize = 32;

/// The most bytes of a text cell.
pub const TEXT_BYTES: usize = 255;

/// The most rows of a segment, both as it is stored and after its delta is applied.
pub const SEGMENT_ROWS: u32 = 1_048_576;

/// The highest storage key of a delta, and the most entries of a join index.
pub const DELTA_KEYS: u32 = 4_194_304;

/// The most rows of a table.
pub const TABLE_ROWS: u64 = 16_777_216;
