//! Why a store is refused, or could not be read or written.
use cs_schema::{FileName, Loss};
use std::fmt;
use thiserror::Error;

/// Why a call on a source or a sink failed.
#[derive(Clone, Copy, Debug, PartialEq, Eq)]
pub enum StoreFault {
    /// Out of memory.
    Memory,
    /// The device failed.
    Device,
}

/// Why a store was refused, or could not be read or written. Its `Display` is the text that the programs print.
///
/// Numbers are those of projections (`p`, and `q` for the target of a join index), of segments (`s`), and of rows by
/// their position in a segment's image, each from 0.
#[derive(Clone, Copy, Debug, PartialEq, Eq, Error)]
pub enum Fault {
    /// Out of memory. It may take the place of any other answer.
    #[error("want of memory")]
    Memory,
    /// The loss names a site that the catalog does not have.
    #[error("loss names a site outside the catalog")]
    Site,
    /// A check for more lost sites than the maximum.
    #[error("k above 3")]
    BadK,
    /// What survives this loss does not have every column.
    #[error("unsafe loss: {0}")]
    Unsafe(Loss),
    /// The file is missing.
    #[error("missing {0}")]
    Missing(FileName),
    /// The bytes are not a file of this name.
    #[error("damaged {0}")]
    Damaged(FileName),
    /// The join indexes lead from this row to no row.
    #[error("astray p{p}.s{s} row {row}")]
    Astray { p: u16, s: u16, row: u32 },
    /// Two rows have the same primary key.
    #[error("primary key twice")]
    Twice,
    /// This segment's range has too many rows.
    #[error("full p{p}.s{s}")]
    Full { p: u16, s: u16 },
    /// The segment does not have the rows of its range, in order.
    #[error("misplaced p{p}.s{s}")]
    Misplaced { p: u16, s: u16 },
    /// This segment's join index leads to other rows.
    #[error("misled p{p}.s{s}.q{q}")]
    Misled { p: u16, s: u16, q: u16 },
    /// Reading this file failed.
    #[error("read {0}")]
    Read(FileName),
    /// Writing this file failed, or the mark if no file is named.
    #[error("write {target}", target = Target(*.0))]
    Write(Option<FileName>),
}

/// What a save was writing: a file, or the mark if no file is named.
#[derive(Clone, Copy)]
struct Target(Option<FileName>);

impl fmt::Display for Target {
    fn fmt<W: fmt::Write>(&self, f: &mut fmt::Formatter<W>) -> fmt::Result {
        match self.0 {
            Some(name) => write!(f, "{name}"),
            None => f.write_str("DONE"),
        }
    }
}
