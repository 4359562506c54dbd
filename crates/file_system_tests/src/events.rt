//! The calls of a file system as values.
use std::fmt;

/// What was called, or what a look came to.
#[derive(Clone, Copy, Debug, PartialEq, Eq)]
pub enum What {
    Create,
    Make,
    Write,
    Sync,
    Rename,
    Link,
    Keep,
    Remove,
    See,
    Miss,
    Same,
    SyncFolder,
    Finish,
}

/// A call that was made.
#[derive(Drop)]
pub struct Event {
    pub what: What,
    pub path: String,
    /// The second path, empty where a call has one.
    pub to: String,
}

impl fmt::Display for What {
    fn fmt<W: fmt::Write>(&self, f: &mut fmt::Formatter<W>) -> fmt::Result {
        f.write_str(match self {
            What::Create => "create",
            What::Make => "make",
            What::Write => "write",
            What::Sync => "sync",
            What::Rename => "rename",
            What::Link => "link",
            What::Keep => "keep",
            What::Remove => "remove",
            What::See => "see",
            What::Miss => "miss",
            What::Same => "same",
            What::SyncFolder => "sync folder",
            What::Finish => "finish",
        })
    }
}

impl fmt::Display for Event {
    fn fmt<W: fmt::Write>(&self, f: &mut fmt::Formatter<W>) -> fmt::Result {
        write!(f, "{} {}", self.what, self.path)?;
        if self.to.is_empty() {
            return Ok(());
        }
        write!(f, " {}", self.to)
    }
}
