//! Why a file is bad.

/// What is wrong with the file under a name: the first that applies.
#[derive(Clone, Copy, Debug, PartialEq, Eq)]
pub enum Badness {
    /// The device failed while it was read.
    Unreadable,
    /// There is no such file.
    Missing,
    /// Its bytes are not a file of that name, or it is a delta that does not merge with its sound segment.
    Damaged,
}
