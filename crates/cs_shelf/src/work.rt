//! Work that changes a store: what it is, what an undo puts back, and why a store cannot be locked for it.
use cs_schema::{FileName, Loss};
use cs_store::FileSet;
use std::fmt;

/// The name of the record in a store's folder while a restore or an undo is unfinished.
pub const RESTORING: &str = "RESTORING";

/// The name of the journal in a store's folder: a line of JSON for each finished restore and undo.
pub const JOURNAL: &str = "restores.jsonl";

/// Work that changes a store.
#[derive(Clone, Copy, Debug, PartialEq, Eq)]
pub enum Work {
    /// The files of these lost sites are rebuilt.
    Restore(Loss),
    /// The files from before the work with this number are put back.
    Undo(u32),
}

/// A kind of work on a store, named by its verb.
#[derive(Clone, Copy, Debug, PartialEq, Eq)]
pub enum WorkKind {
    Restore,
    Undo,
}

impl Work {
    /// The kind of the work.
    pub fn kind(&self) -> WorkKind {
        match self {
            Work::Restore(_) => WorkKind::Restore,
            Work::Undo(_) => WorkKind::Undo,
        }
    }
}

/// Work on a store of which the record stands in its folder.
#[derive(Clone, Copy, Debug, PartialEq, Eq)]
pub enum Pending {
    /// A run is at work.
    AtWork(WorkKind),
    /// The run that began the work was stopped, and it is to be resumed.
    Stopped(WorkKind),
    /// Whether a run is at work can't be told, since the record or its lock can't be had.
    Unknown(WorkKind),
}

impl fmt::Display for WorkKind {
    fn fmt<W: fmt::Write>(&self, f: &mut fmt::Formatter<W>) -> fmt::Result {
        f.write_str(match self {
            WorkKind::Restore => "restore",
            WorkKind::Undo => "undo",
        })
    }
}

impl fmt::Display for Work {
    fn fmt<W: fmt::Write>(&self, f: &mut fmt::Formatter<W>) -> fmt::Result {
        match self {
            Work::Restore(lost) => write!(f, "lost={lost}"),
            Work::Undo(number) => write!(f, "undo={number}"),
        }
    }
}

/// The work to undo.
#[derive(Clone, Copy, Debug, PartialEq, Eq)]
pub enum UndoOf {
    /// The last work that was finished.
    Last,
    /// The work with this number.
    Number(u32),
    /// The work whose undo is unfinished.
    Unfinished,
}

/// The files that an undo puts back.
#[derive(Drop)]
pub struct Undoable {
    /// The N of `replaced/N`.
    pub number: u32,
    /// The old files, for the names that had one.
    pub back: FileSet,
    /// The names that changed, ascending.
    pub names: Vec<FileName>,
    /// Those of them under which what was kept is moved back, since it is no regular file that can be read. In `back` they
    /// have no bytes.
    pub moved: Vec<FileName>,
}

/// Why a store cannot be locked.
#[derive(Debug, Drop)]
pub enum Untaken {
    /// Out of memory.
    Memory,
    /// A call on a file or a folder failed.
    Device,
    /// A restore of the store is unfinished.
    Unfinished,
    /// An undo of the store is unfinished.
    UnfinishedUndo,
    /// No work of this kind is unfinished.
    Finished,
    /// A run is at work on the store.
    AtWork(WorkKind),
    /// There is work on the store, and whether a run is at it can't be told.
    Unknown(WorkKind),
    /// The record cannot be parsed.
    Damaged,
    /// Nothing is kept under this number, or under any number if none is given.
    NoneKept(Option<u32>),
    /// The files that are kept under this number have no record.
    Unrecorded(u32),
    /// The file that is kept under this number and name is missing, or is not a readable regular file.
    Incomplete(u32, FileName),
    /// The folder of this file is away, or is not the one in which the unfinished work was begun.
    Away(FileName),
    /// The name of this file is a link that leads nowhere, or to a file of another name.
    Link(FileName),
}
