//! How many rows or items are worth starting threads for. Results do not depend on these numbers.

/// The number of rows that one thread tests before others are started. Rows that are out of order mostly show it among
/// the first. Not measured separately.
pub const EARLY: usize = 1024;

/// The minimum number of rows or list items for each thread that tests or fills them. Not measured separately.
pub const SHARE: usize = 65_536;

/// The minimum number of items that several threads sort. Starting a thread takes about 30 µs, and a sort starts one
/// for each processor, so one thread sorts fewer items about as fast. The ranges of a projection are sorted in parallel
/// anyway.
pub const WORTH_THREADS: usize = 131_072;
