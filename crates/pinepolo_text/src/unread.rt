//! Why files could not be read, and what is to be mended before they are taken for lost.
use crate::at::At;
use crate::system_words::mend_text;
use cs_file_system::FailedCall;
use cs_reports::{BadFile, FileProblem, ShellWord, fill};
use cs_schema::{FileName, Loss};
use pinepolo_places::AwaySite;
use std::fmt;

/// Why a file could not be read. Its text is the end of a line.
#[derive(Clone, Copy)]
pub enum Unread<'a> {
    /// The folder of its site is away.
    Away(&'a AwaySite),
    /// A call failed.
    Failed(&'a FailedCall),
    /// No call failed, so what is there was not read.
    NotFile,
}

impl<'a> Unread<'a> {
    /// Why the file of this name could not be read, which is on this site.
    pub fn of(at: At<'a>, site: Option<u8>, name: FileName) -> Self {
        if let Some(site) = site {
            if let Some(away) = at.away_site(site) {
                return Unread::Away(away);
            }
        }
        match at.calls.last_of_file(name.path().as_str()) {
            Some(call) => Unread::Failed(call),
            None => Unread::NotFile,
        }
    }
}

impl fmt::Display for Unread<'_> {
    fn fmt<W: fmt::Write>(&self, f: &mut fmt::Formatter<W>) -> fmt::Result {
        match self {
            Unread::Away(away) => {
                let folder = away.folder.as_str();
                write!(f, "the folder of its site is away: {folder}")
            }
            Unread::Failed(call) => write!(f, "could not {call}"),
            Unread::NotFile => {
                f.write_str("not a regular file, or longer than its catalog allows")
            }
        }
    }
}

/// A bad file, as a line that says why it could not be read if it could not.
#[derive(Clone, Copy)]
pub struct BadFileLine<'a> {
    pub file: &'a BadFile,
    pub at: At<'a>,
}

impl fmt::Display for BadFileLine<'_> {
    fn fmt<W: fmt::Write>(&self, f: &mut fmt::Formatter<W>) -> fmt::Result {
        let BadFile {
            name,
            site,
            problem,
        } = *self.file;
        let (number, word) = (site.unwrap_or(0), problem.word());
        write!(f, "site {number}  {word}  {name}")?;
        if problem == FileProblem::Unreadable {
            let why = Unread::of(self.at, site, name);
            write!(f, ": {why}")?;
        }
        f.write_str("\n")
    }
}

/// What is to be mended before a file that could not be read is taken for lost. Its text has no end.
#[derive(Clone, Copy)]
pub enum Mend<'a> {
    /// The disks of these sites are to be mounted; of all if it names none.
    Mount(Loss),
    /// What this call failed at, by the text of the advice.
    Call(&'static str, &'a FailedCall),
}

impl<'a> Mend<'a> {
    /// What is to be mended after a call that failed, if that is known.
    pub fn after(call: &'a FailedCall) -> Option<Self> {
        match mend_text(call) {
            Some(text) => Some(Mend::Call(text, call)),
            None => None,
        }
    }

    /// What is to be mended before a file can be read that could not be, if that is known.
    pub fn before(at: At<'a>, why: Unread<'a>) -> Option<Self> {
        match why {
            Unread::Failed(call) => Mend::after(call),
            Unread::Away(away) => Some(Mend::reach(at, away)),
            Unread::NotFile => None,
        }
    }

    /// What is to be mended before this file can be read, if it could not be and that is known.
    pub fn of(at: At<'a>, file: &BadFile) -> Option<Self> {
        if file.problem != FileProblem::Unreadable {
            return None;
        }
        Mend::before(at, Unread::of(at, file.site, file.name))
    }

    /// What is to be mended before the first of these files can be read, if that is known.
    pub fn first(at: At<'a>, files: &[BadFile]) -> Option<Self> {
        for file in files {
            let mend = Mend::of(at, file);
            if mend.is_some() {
                return mend;
            }
        }
        None
    }

    /// What is to be mended before a site that is away can be read.
    pub fn reach(at: At<'a>, away: &'a AwaySite) -> Self {
        let mend = match at.calls.last_below(away.folder.as_str()) {
            Some(call) => Mend::after(call),
            None => None,
        };
        match mend {
            Some(mend) => mend,
            None => Mend::Mount(at.away_sites()),
        }
    }
}

impl fmt::Display for Mend<'_> {
    fn fmt<W: fmt::Write>(&self, f: &mut fmt::Formatter<W>) -> fmt::Result {
        match self {
            Mend::Mount(sites) => match sites.count() {
                0 => f.write_str("mount the disks of its sites"),
                1 => write!(f, "mount the disk of site {sites}"),
                _ => write!(f, "mount the disks of sites {sites}"),
            },
            Mend::Call(text, call) => fill(f, text, &[ShellWord(call.path.as_str())]),
        }
    }
}
