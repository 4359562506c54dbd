//! What the texts of an error name.
use cs_catalog::CatalogFault;
use cs_reports::{ShellWord, StoreWords, fill};
use cs_schema::FileName;
use pinepolo_places::{Failure, Refusal, VerbError, WorkKind};
use std::fmt;

/// A number or a name that an error has beside its path.
#[derive(Clone, Copy)]
enum Detail {
    Nothing,
    Number(u32),
    Verb(WorkKind),
    File(FileName),
    /// The mark of an output that is whole.
    Mark,
    Catalog(CatalogFault),
}

impl fmt::Display for Detail {
    fn fmt<W: fmt::Write>(&self, f: &mut fmt::Formatter<W>) -> fmt::Result {
        match self {
            Detail::Nothing => Ok(()),
            Detail::Number(number) => write!(f, "{number}"),
            Detail::Verb(verb) => write!(f, "{verb}"),
            Detail::File(name) => write!(f, "{name}"),
            Detail::Mark => f.write_str("DONE"),
            Detail::Catalog(fault) => write!(f, "{fault}"),
        }
    }
}

/// What the texts of an error name.
#[derive(Clone, Copy)]
enum Part<'a> {
    Text(&'a str),
    Path(ShellWord<'a>),
    Detail(Detail),
    Store(StoreWords<'a>),
}

impl fmt::Display for Part<'_> {
    fn fmt<W: fmt::Write>(&self, f: &mut fmt::Formatter<W>) -> fmt::Result {
        match self {
            Part::Text(text) => f.write_str(text),
            Part::Path(path) => write!(f, "{path}"),
            Part::Detail(detail) => write!(f, "{detail}"),
            Part::Store(store) => write!(f, "{store}"),
        }
    }
}

/// The number or the verb, and the file, that a failure is about.
fn failure_details(failure: &Failure) -> (Detail, Detail) {
    match failure {
        Failure::WriteOutput(Some(name)) => (Detail::Nothing, Detail::File(*name)),
        Failure::WriteOutput(None) => (Detail::Nothing, Detail::Mark),
        Failure::RemoveRecord(verb) | Failure::GiveBack(verb) | Failure::GoOn(verb) => {
            (Detail::Verb(*verb), Detail::Nothing)
        }
        Failure::ReachSite(site) => (Detail::Number(u32::from(*site)), Detail::Nothing),
        _ => (Detail::Nothing, Detail::Nothing),
    }
}

/// The number, and the file, that a refusal is about.
fn refusal_details(refusal: &Refusal) -> (Detail, Detail) {
    match refusal {
        Refusal::NothingKept(Some(number)) | Refusal::NoRecord(number) => {
            (Detail::Number(*number), Detail::Nothing)
        }
        Refusal::NoSuchSite(site) => (Detail::Number(u32::from(*site)), Detail::Nothing),
        Refusal::Incomplete(number, name) => (Detail::Number(*number), Detail::File(*name)),
        Refusal::BrokenLink(name) => (Detail::Nothing, Detail::File(*name)),
        _ => (Detail::Nothing, Detail::Nothing),
    }
}

/// What else the texts name.
fn details_of(error: &VerbError) -> (Detail, Detail) {
    match error {
        VerbError::NotUtf8 | VerbError::OutOfMemory | VerbError::Sites(_) => {
            (Detail::Nothing, Detail::Nothing)
        }
        VerbError::Catalog(fault, _) => (Detail::Catalog(*fault), Detail::Nothing),
        VerbError::Device(failure, _) => failure_details(failure),
        VerbError::Refused(refusal, _) => refusal_details(refusal),
        VerbError::Store(error) => {
            let count = u32::try_from(error.bad.len()).unwrap_or(u32::MAX);
            (Detail::Number(count), Detail::Nothing)
        }
    }
}

/// Writes a text of an error, with what it names, on a store with this SITES file.
pub fn write_text<'a, W: fmt::Write>(
    f: &mut fmt::Formatter<W>,
    error: &'a VerbError,
    text: &str,
    sites: Option<&'a str>,
) -> fmt::Result {
    let (store, words) = error.subject();
    let (third, fourth) = details_of(error);
    let parts = [
        Part::Text(store),
        Part::Path(ShellWord(store)),
        Part::Text(words),
        Part::Detail(third),
        Part::Detail(fourth),
        Part::Store(StoreWords { store, sites }),
    ];
    fill(f, text, &parts)
}
