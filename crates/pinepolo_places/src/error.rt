//! Why a verb ends early, and the status that tells it.
ghost use Rattle.std.specs.Prelude.{◌≡◌, ◌⊎◌};
ghost use Rattle.pinepolo_places.specs.Status.{status_of, fault_status};

use crate::causes::{Failure, Refusal};
use crate::sites_error::SitesError;
use cs_catalog::CatalogFault;
use cs_reports::{BadFile, FaultWords, fault_site};
use cs_schema::Catalog;
use cs_shelf::WorkKind;
use cs_store::{Fault, StoreFault};
use std::alloc::Global;
use std::fmt;

/// The status of a verb that did what it was asked for.
pub const DONE: u8 = 0;

/// The status if a catalog or a store was refused.
pub const REFUSED: u8 = 1;

/// The status of a usage error.
pub const USAGE: u8 = 2;

/// The status if memory ran out.
pub const MEMORY: u8 = 3;

/// The status if a file, a folder or a stream failed.
pub const DEVICE: u8 = 4;

/// What an error is about.
#[derive(Debug, Drop)]
pub struct Subject {
    /// The path of a store, a folder or a file.
    pub path: String,
    /// What is wrong there, in words; empty if the kind of the error says it all.
    pub words: String,
}

/// A fault of a store.
#[derive(Debug, Drop)]
pub struct StoreError {
    pub fault: Fault,
    /// The site of the file or the segment that the fault is about.
    pub site: Option<u8>,
    /// The folder of the store, or the file of its catalog, and the fault in words.
    pub subject: Subject,
    /// All bad files, if the fault comes of them and they are known.
    pub bad: Vec<BadFile>,
    /// What to do next.
    pub step: Step,
}

/// Work on a store that stopped halfway.
#[derive(Clone, Copy, Debug)]
pub struct Halfway {
    pub kind: WorkKind,
    /// How many files this run replaced or took away.
    pub changed: u64,
    /// The N of `replaced/N`, if old files are kept there.
    pub kept: Option<u32>,
}

/// What to do next about a fault of a store.
#[derive(Clone, Copy, Debug)]
pub enum Step {
    /// What the fault asks for.
    ByFault,
    /// Work that was left unfinished is resumed.
    Resume(WorkKind),
    /// Work of this run that stopped halfway is resumed.
    GoOn(Halfway),
    /// The store is diagnosed.
    Diagnose,
}

/// Why a verb ends early.
#[derive(Debug, Drop)]
pub enum VerbError {
    /// The command line is not UTF-8.
    NotUtf8,
    /// Memory ran out.
    OutOfMemory,
    /// A catalog breaks a rule, or is no TOML.
    Catalog(CatalogFault, Subject),
    /// A file, a folder or a stream failed.
    Device(Failure, Subject),
    /// A store, a text or what was asked for is refused.
    Refused(Refusal, Subject),
    /// The folders of the sites of a store are refused.
    Sites(SitesError),
    /// A fault of a store.
    Store(StoreError),
}

/// The status that tells a fault of a store.
fn fault_status(fault: &Fault) -> u8
    ensures { result ≡ fault_status fault.now }
{
    match fault {
        Fault::Memory => MEMORY,
        Fault::Read(_) | Fault::Write(_) => DEVICE,
        _ => REFUSED,
    }
}

/// A path and a text about it.
fn subject_of<T: fmt::Display>(alloc: Global, path: &str, words: &T) -> Option<Subject> {
    let words = format!(in alloc; "{words}").ok()?;
    let path = String::from_str(alloc, path).ok()?;
    Some(Subject { path, words })
}

impl VerbError {
    /// The status that tells it.
    pub fn status(&self) -> u8
        ensures { result ≡ status_of self.now }
    {
        match self {
            VerbError::NotUtf8 => USAGE,
            VerbError::OutOfMemory => MEMORY,
            VerbError::Catalog(..) | VerbError::Refused(..) => REFUSED,
            VerbError::Device(..) => DEVICE,
            VerbError::Sites(error) => error.status(),
            VerbError::Store(error) => fault_status(&error.fault),
        }
    }

    /// A refusal of what is at a path.
    pub fn refused(alloc: Global, refusal: Refusal, path: &str) -> Self
        ensures { (status_of result ≡ REFUSED) ⊎ (result ≡ VerbError.OutOfMemory) }
    {
        Self::refused_by(alloc, refusal, path, &"")
    }

    /// A refusal of what is at a path, with what is wrong there.
    pub fn refused_by<T: fmt::Display>(
        alloc: Global,
        refusal: Refusal,
        path: &str,
        words: &T,
    ) -> Self
        ensures { (status_of result ≡ REFUSED) ⊎ (result ≡ VerbError.OutOfMemory) }
    {
        match subject_of(alloc, path, words) {
            Some(subject) => VerbError::Refused(refusal, subject),
            None => VerbError::OutOfMemory,
        }
    }

    /// A catalog at a path that is refused, with what breaks its rule.
    pub fn of_catalog(alloc: Global, fault: CatalogFault, path: &str, words: &str) -> Self
        ensures { (status_of result ≡ REFUSED) ⊎ (result ≡ VerbError.OutOfMemory) }
    {
        match subject_of(alloc, path, &words) {
            Some(subject) => VerbError::Catalog(fault, subject),
            None => VerbError::OutOfMemory,
        }
    }

    /// What failed at a path, by a fault of the device or for lack of memory.
    pub fn of_device(alloc: Global, fault: StoreFault, failure: Failure, path: &str) -> Self
        ensures { (status_of result ≡ DEVICE) ⊎ (result ≡ VerbError.OutOfMemory) }
    {
        if let StoreFault::Memory = fault {
            return VerbError::OutOfMemory;
        }
        match subject_of(alloc, path, &"") {
            Some(subject) => VerbError::Device(failure, subject),
            None => VerbError::OutOfMemory,
        }
    }

    /// What failed at a path.
    pub fn of_path(alloc: Global, failure: Failure, path: String) -> Self
        ensures { status_of result ≡ DEVICE }
    {
        let words = String::new(alloc);
        VerbError::Device(failure, Subject { path, words })
    }

    /// The path that the error is about, and what is wrong there in words.
    pub fn subject(&self) -> (&str, &str) {
        match self {
            VerbError::NotUtf8 | VerbError::OutOfMemory | VerbError::Sites(_) => ("", ""),
            VerbError::Catalog(_, subject)
            | VerbError::Device(_, subject)
            | VerbError::Refused(_, subject) => (subject.path.as_str(), subject.words.as_str()),
            VerbError::Store(error) => {
                (error.subject.path.as_str(), error.subject.words.as_str())
            }
        }
    }

    /// Whether the error is about what is at this path.
    pub fn is_about(&self, path: &str) -> bool {
        let (about, _words) = self.subject();
        about == path
    }

    /// A fault of the store at a path, which has this catalog.
    pub fn of_store(alloc: Global, catalog: &Catalog, path: &str, fault: &Fault) -> Self
        ensures { (status_of result ≡ fault_status fault.now) ⊎ (result ≡ VerbError.OutOfMemory) }
    {
        let words = FaultWords { catalog, fault };
        let Some(subject) = subject_of(alloc, path, &words) else {
            return VerbError::OutOfMemory;
        };
        VerbError::Store(StoreError {
            fault: *fault,
            site: fault_site(catalog, fault),
            subject,
            bad: Vec::new(alloc),
            step: Step::ByFault,
        })
    }

    /// The error of work that was to go on: it says that the work is still unfinished, if a call failed before it could begin.
    pub fn still_unfinished(self, kind: WorkKind) -> Self
        ensures { status_of result ≡ status_of self }
    {
        match self {
            VerbError::Device(Failure::ReadCatalog, subject)
            | VerbError::Device(Failure::WriteRecord, subject) => {
                VerbError::Device(Failure::GoOn(kind), subject)
            }
            other => other,
        }
    }

    /// The error with another step, and with all bad files, if it is a fault of a store.
    pub fn with(self, step: Step, bad: Vec<BadFile>) -> Self
        ensures { status_of result ≡ status_of self }
    {
        match self {
            VerbError::Store(
                StoreError {
                    fault,
                    site,
                    subject,
                    bad: _,
                    step: _,
                },
            ) => VerbError::Store(StoreError {
                fault,
                site,
                subject,
                bad,
                step,
            }),
            other => other,
        }
    }
}
