//! How many bytes, cells or entries are worth starting threads for. Answers do not depend on these numbers.

/// The minimum size in bytes of a segment file that several threads read. With 65,536, threads are started for little
/// work. Not measured separately.
pub(crate) const WORTH_THREADS: usize = 524_288;

/// The number of cells of an image, or of entries of a join index, that one thread compares. If one thread compares a
/// whole image with 1,000,000 rows, a recovery takes 10 % longer.
pub(crate) const PART: u32 = 131_072;

/// The minimum number of entries of a join index that one thread makes if there are fewer join indexes than workers.
/// Not measured separately.
pub(crate) const LEAST_ENTRIES: usize = 1024;
