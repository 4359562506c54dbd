//! Why a SITES file is refused.
use thiserror::Error;

/// Why a SITES file is refused. Its `[[site]]` tables are numbered from 0.
#[derive(Clone, Copy, Debug, PartialEq, Eq, Error)]
pub enum SitesFault {
    /// Out of memory. It may take the place of any other answer.
    #[error("out of memory")]
    Memory,
    /// The file has more than 65,536 bytes.
    #[error("more than 65536 bytes")]
    TooLong,
    /// The file is not TOML in UTF-8.
    #[error("not TOML")]
    Toml,
    /// The key `site` is missing or is no array.
    #[error("no [[site]] tables")]
    NoSites,
    /// The `number` of this table is missing, or is no integer from 1 to 16.
    #[error("[[site]] {0}: number is missing or not an integer between 1 and 16")]
    Number(usize),
    /// The `folder` of this table is missing, or is no string.
    #[error("[[site]] {0}: folder is missing or not a string")]
    Folder(usize),
    /// Two tables have this number.
    #[error("site {0} specified more than once")]
    Twice(u8),
    /// A table has this number, which is that of no site of the catalog.
    #[error("the catalog has no site {0}")]
    Unknown(u8),
    /// No table has the number of this site of the catalog.
    #[error("site {0} is missing")]
    Missing(u8),
}
