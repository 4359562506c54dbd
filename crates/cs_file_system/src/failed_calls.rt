//! What the system said of the calls that failed.
use std::alloc::{AllocError, Global};
use std::io::ErrorKind;
use std::sync::OnceLock;
use std::sync::atomic::{AtomicU64, Ordering};
use std::{fmt, io};

/// How many calls a list keeps, at most: who fails more often has told enough.
const CALLS: u32 = 1_024;

/// What a call on a file or a folder does. Its `Display` is a verb.
#[derive(Clone, Copy, Debug, PartialEq, Eq)]
pub enum Operation {
    LookAt,
    Open,
    Make,
    Read,
    Write,
    Sync,
    Rename,
    Link,
    Remove,
    List,
    Lock,
    SetOwner,
}

impl fmt::Display for Operation {
    fn fmt<W: fmt::Write>(&self, f: &mut fmt::Formatter<W>) -> fmt::Result {
        f.write_str(match self {
            Operation::LookAt => "look at",
            Operation::Open => "open",
            Operation::Make => "make",
            Operation::Read => "read",
            Operation::Write => "write",
            Operation::Sync => "sync",
            Operation::Rename => "rename",
            Operation::Link => "link",
            Operation::Remove => "remove",
            Operation::List => "list",
            Operation::Lock => "lock",
            Operation::SetOwner => "set the owner or the mode of",
        })
    }
}

/// A call on a file or a folder that failed. Its `Display` says which and why: `sync /a/b: Input/output error (os error 5)`.
#[derive(Debug, Drop)]
pub struct FailedCall {
    pub operation: Operation,
    /// The path that the call was given; of two, the one that something stands at.
    pub path: String,
    /// What the system said.
    pub error: io::Error,
}

impl fmt::Display for FailedCall {
    fn fmt<W: fmt::Write>(&self, f: &mut fmt::Formatter<W>) -> fmt::Result {
        let (path, error) = (self.path.as_str(), self.error);
        write!(f, "{} {path}: {error}", self.operation)
    }
}

impl FailedCall {
    /// Whether the path's last name is this one, also with another ending, such as that of a temporary file.
    fn is_of_file(&self, name: &str) -> bool {
        let last = match self.path.as_str().rsplit_once('/') {
            Some((_folder, last)) => last,
            None => self.path.as_str(),
        };
        match last.strip_prefix(name) {
            Some(rest) => rest.is_empty() || rest.starts_with('.'),
            None => false,
        }
    }

    /// Whether the path is this one, one in this folder, or this one with `.partial` behind it.
    fn is_below(&self, path: &str) -> bool {
        match self.path.as_str().strip_prefix(path) {
            Some(rest) => rest.is_empty() || rest.starts_with('/') || rest.starts_with(".partial"),
            None => false,
        }
    }

    /// Whether the path is this one, or that of this name in it.
    fn is_at(&self, path: &str, name: &str) -> bool {
        match self.path.as_str().strip_prefix(path) {
            Some("") => true,
            Some(rest) => rest.strip_prefix('/') == Some(name),
            None => false,
        }
    }
}

/// The first calls of a kind that failed, in their order.
#[derive(Drop)]
struct CallList {
    count: AtomicU64,
    calls: Vec<OnceLock<FailedCall>>,
}

impl CallList {
    /// A list of no calls.
    fn new(alloc: Global) -> Result<Self, AllocError> {
        let mut calls = Vec::new(alloc);
        for _ in 0..CALLS {
            calls.push(OnceLock::new())?;
        }
        Ok(Self {
            count: AtomicU64::new(0),
            calls,
        })
    }

    /// Adds a call, if there is room. Each call has a place of its own, so no thread waits for another.
    fn add(&self, call: FailedCall) {
        let at = self.count.fetch_add(1, Ordering::SeqCst);
        if let Some(place) = self.calls.get(at as usize) {
            let _was_free = place.try_set(call).is_ok();
        }
    }

    /// The last call.
    fn last(&self) -> Option<&FailedCall> {
        for place in self.calls.iter().rev() {
            if let Some(call) = place.get() {
                return Some(call);
            }
        }
        None
    }

    /// The last call on a file of this name.
    fn last_of_file(&self, name: &str) -> Option<&FailedCall> {
        for place in self.calls.iter().rev() {
            if let Some(call) = place.get() {
                if call.is_of_file(name) {
                    return Some(call);
                }
            }
        }
        None
    }

    /// The last call at this path, or at this name in it.
    fn last_at(&self, path: &str, name: &str) -> Option<&FailedCall> {
        for place in self.calls.iter().rev() {
            if let Some(call) = place.get() {
                if call.is_at(path, name) {
                    return Some(call);
                }
            }
        }
        None
    }

    /// The last call at this path, or below it.
    fn last_below(&self, path: &str) -> Option<&FailedCall> {
        for place in self.calls.iter().rev() {
            if let Some(call) = place.get() {
                if call.is_below(path) {
                    return Some(call);
                }
            }
        }
        None
    }
}

/// The first calls that failed, of all threads, each with what the system said. That a name was not there, for which many calls
/// ask, is kept apart.
#[derive(Drop)]
pub struct FailedCalls {
    pub(crate) alloc: Global,
    failed: CallList,
    missing: CallList,
}

impl FailedCalls {
    /// No call failed.
    pub fn new(alloc: Global) -> Result<Self, AllocError> {
        Ok(Self {
            alloc,
            failed: CallList::new(alloc)?,
            missing: CallList::new(alloc)?,
        })
    }

    /// Notes that a call failed. Not noted is what a program asks for that others run beside: that a name is taken or locked; nor
    /// what is asked again; nor what the system said nothing of.
    pub fn note(&self, operation: Operation, path: &str, error: io::Error) {
        if error.raw_os_error().is_none() {
            return;
        }
        let list = match error.kind() {
            ErrorKind::AlreadyExists | ErrorKind::WouldBlock | ErrorKind::Interrupted => return,
            ErrorKind::NotFound => &self.missing,
            _ => &self.failed,
        };
        if let Ok(path) = String::from_str(self.alloc, path) {
            list.add(FailedCall {
                operation,
                path,
                error,
            });
        }
    }

    /// The last failed call on a file of this name, also with another ending, in any folder.
    pub fn last_of_file(&self, name: &str) -> Option<&FailedCall> {
        self.failed.last_of_file(name)
    }

    /// The last failed call.
    pub fn last(&self) -> Option<&FailedCall> {
        self.failed.last()
    }

    /// The last failed call at this path, in the folder that it is, or at this path with `.partial` behind it.
    pub fn last_below(&self, path: &str) -> Option<&FailedCall> {
        self.failed.last_below(path)
    }

    /// The last call to which the system said that nothing is at this path, or at this name in it.
    pub fn missing_in(&self, path: &str, name: &str) -> Option<&FailedCall> {
        self.missing.last_at(path, name)
    }
}
