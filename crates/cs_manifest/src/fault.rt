//! Why a text is not a manifest.
use thiserror::Error;

/// Why a text is not a manifest. Lines are numbered from 1.
#[derive(Clone, Copy, Debug, PartialEq, Eq, Error)]
pub enum ManifestFault {
    /// Out of memory. This may be returned in place of any other answer.
    #[error("want of memory")]
    Memory,
    /// This line is not UTF-8.
    #[error("line {0} is not UTF-8")]
    NoText(usize),
    /// This line does not have a digest and a path.
    #[error("line {0} is not a digest and a path")]
    Line(usize),
    /// This line names a file that an earlier line named.
    #[error("line {0} names a file again")]
    Twice(usize),
}
