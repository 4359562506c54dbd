//! Errors in words.
use crate::at::At;
use crate::error_parts::write_text;
use crate::error_texts::error_texts;
use crate::sites_words::SitesWords;
use crate::system_words::failed_call;
use crate::unread::{BadFileLine, Mend, Unread};
use cs_file_system::FailedCall;
use cs_reports::{Next, StoreWords};
use cs_schema::Loss;
use cs_store::Fault;
use pinepolo_places::{AwaySite, Failure, Refusal, Step, StoreError, VerbError};
use std::fmt;

/// Writes what the store is now, if work on it stopped halfway.
fn write_state<W: fmt::Write>(f: &mut fmt::Formatter<W>, error: &StoreError) -> fmt::Result {
    let Step::GoOn(halfway) = error.step else {
        return Ok(());
    };
    let (store, kind) = (error.subject.path.as_str(), halfway.kind);
    let changed = halfway.changed;
    write!(
        f,
        "state: the {kind} is not finished, files changed by this run: {changed}"
    )?;
    match halfway.kept {
        Some(number) if changed > 0 => writeln!(
            f,
            "; the old ones are kept in {store}/replaced/{number}, or there in the folders of their sites; do not read the store until it is finished"
        ),
        _ => writeln!(
            f,
            "; until it is finished only pinepolo should read the store"
        ),
    }
}

/// An error, with what the system said of it.
#[derive(Clone, Copy)]
pub struct ErrorText<'a> {
    pub error: &'a VerbError,
    /// Where the store is that the verb was given; none if there was no verb.
    pub at: Option<At<'a>>,
    /// What stands before each fault: the program's name, unless a terminal shows it.
    pub prefix: &'a str,
}

impl<'a> ErrorText<'a> {
    /// The failed call that it tells of, if the system said anything of it.
    pub fn failed(&self) -> Option<&'a FailedCall> {
        failed_call(self.error, self.at?.calls)
    }

    /// The path of the SITES file, if the error is about a store whose sites have folders of their own.
    fn sites(&self) -> Option<&'a str> {
        let at = self.at?;
        if self.error.is_about(at.store) {
            Some(at.sites?.file)
        } else {
            None
        }
    }

    /// The site that is away, if the error is that its folder was not found.
    fn missed(&self) -> Option<&'a AwaySite> {
        match self.error {
            VerbError::Device(Failure::ReachSite(site), _) => self.at?.away_site(*site),
            _ => None,
        }
    }

    /// Why the file was not read that the error is about, if it is about one alone.
    fn unread(&self) -> Option<Unread<'a>> {
        match self.error {
            VerbError::Store(
                StoreError {
                    fault: Fault::Read(name),
                    site,
                    bad,
                    ..
                },
            ) if bad.is_empty() => Some(Unread::of(self.at?, *site, *name)),
            _ => None,
        }
    }

    /// What is to be mended first, if that is known.
    fn mend(&self) -> Option<Mend<'a>> {
        let at = self.at?;
        if let Some(away) = self.missed() {
            return Some(Mend::reach(at, away));
        }
        if let Some(why) = self.unread() {
            return Mend::before(at, why);
        }
        match self.error {
            // (what to see to is more than what the call failed at)
            VerbError::Refused(Refusal::Unknown(_), _) => None,
            VerbError::Store(error) if !error.bad.is_empty() => {
                Mend::first(at, error.bad.as_slice())
            }
            _ => match self.failed_mend() {
                None if self.has_no_copy() => Some(Mend::Mount(Loss::none())),
                mend => mend,
            },
        }
    }

    /// What is to be mended after the call that failed, if that is known.
    fn failed_mend(&self) -> Option<Mend<'a>> {
        Mend::after(self.failed()?)
    }

    /// Whether no folder of a site has a copy of the catalog.
    fn has_no_copy(&self) -> bool {
        match self.error {
            VerbError::Device(Failure::ReadCatalog, _) => self.sites().is_some(),
            _ => false,
        }
    }
}

/// What is wrong, in words of one line, without what to do next.
#[derive(Clone, Copy)]
pub struct ErrorWords<'a>(pub ErrorText<'a>);

/// Writes the site that an error is about, if it is about one.
fn write_site<W: fmt::Write>(f: &mut fmt::Formatter<W>, error: &VerbError) -> fmt::Result {
    match error {
        VerbError::Store(
            StoreError {
                site: Some(site),
                ..
            },
        ) => write!(f, "site {site}: "),
        _ => Ok(()),
    }
}

impl ErrorWords<'_> {
    /// Writes what failed, and what the system said of it: of a call on the path that the error is about, only why.
    fn write_failed<W: fmt::Write>(&self, f: &mut fmt::Formatter<W>) -> fmt::Result {
        let error = self.0.error;
        let texts = error_texts(error);
        match (error, self.0.failed()) {
            (
                VerbError::Store(
                    StoreError {
                        fault: Fault::Write(_),
                        ..
                    },
                ),
                Some(call),
            ) => {
                write_site(f, error)?;
                write!(f, "could not {call}")
            }
            (VerbError::Store(_), _) => write_text(f, error, texts.said, None),
            (_, Some(call)) => {
                write_text(f, error, texts.said, None)?;
                if error.is_about(call.path.as_str()) {
                    let why = call.error;
                    write!(f, ": {why}")
                } else {
                    write!(f, ": {call}")
                }
            }
            (_, None) => {
                write_text(f, error, texts.said, None)?;
                f.write_str(texts.found)
            }
        }
    }

    /// Writes what was not read, and why.
    fn write_unread<W: fmt::Write>(
        &self,
        f: &mut fmt::Formatter<W>,
        why: Unread<'_>,
    ) -> fmt::Result {
        match why {
            Unread::Failed(_) => {
                write_site(f, self.0.error)?;
                write!(f, "{why}")
            }
            _ => {
                write_text(f, self.0.error, "{2}", None)?;
                write!(f, ": {why}")
            }
        }
    }
}

impl fmt::Display for ErrorWords<'_> {
    fn fmt<W: fmt::Write>(&self, f: &mut fmt::Formatter<W>) -> fmt::Result {
        let error = self.0.error;
        if let VerbError::Sites(error) = error {
            let words = SitesWords(error);
            write!(f, "{words}")?;
            return match self.0.failed() {
                Some(call) => write!(f, ": could not {call}"),
                None => Ok(()),
            };
        }
        if let Some(away) = self.0.missed() {
            let (site, folder) = (away.site, away.folder.as_str());
            return write!(f, "the folder of site {site} is away: {folder}");
        }
        match self.0.unread() {
            Some(why) => self.write_unread(f, why)?,
            None => self.write_failed(f)?,
        }
        write_text(f, error, error_texts(error).state, None)
    }
}

/// What to do next about an error: a command that can be pasted, or advice.
#[derive(Clone, Copy)]
pub struct ErrorNext<'a>(pub ErrorText<'a>);

impl fmt::Display for ErrorNext<'_> {
    fn fmt<W: fmt::Write>(&self, f: &mut fmt::Formatter<W>) -> fmt::Result {
        let (error, sites) = (self.0.error, self.0.sites());
        let texts = error_texts(error);
        if let Some(mend) = self.0.mend() {
            write!(f, "{mend}, then ")?;
            return write_text(f, error, texts.again, sites);
        }
        match error {
            VerbError::Store(StoreError { fault, subject, .. }) if texts.next.is_empty() => {
                let store = StoreWords {
                    store: subject.path.as_str(),
                    sites,
                };
                let next = Next { store, fault };
                write!(f, "{next}")
            }
            _ => write_text(f, error, texts.next, sites),
        }
    }
}

/// What is wrong, and what to do next, as lines.
impl fmt::Display for ErrorText<'_> {
    fn fmt<W: fmt::Write>(&self, f: &mut fmt::Formatter<W>) -> fmt::Result {
        let (words, next) = (ErrorWords(*self), ErrorNext(*self));
        let prefix = self.prefix;
        writeln!(f, "{prefix}fault: {words}")?;
        if let VerbError::Store(error) = self.error {
            if let Some(at) = self.at {
                for file in &error.bad {
                    let line = BadFileLine { file, at };
                    write!(f, "{line}")?;
                }
            }
            write_state(f, error)?;
        }
        writeln!(f, "next: {next}")
    }
}
