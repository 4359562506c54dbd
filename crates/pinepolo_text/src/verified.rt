//! What a comparison with a manifest answers, in words.
use crate::at::At;
use crate::next_step::{NextLine, NextStep};
use crate::unread::{BadFileLine, Mend};
use cs_manifest::CATALOG;
use cs_reports::BadFile;
use pinepolo_answers::{Verified, difference_problem};
use pinepolo_places::DONE;
use std::fmt;

/// How a store differs from a manifest, as lines.
#[derive(Clone, Copy)]
pub struct VerifiedText<'a> {
    pub verified: &'a Verified,
    pub at: At<'a>,
}

impl<'a> VerifiedText<'a> {
    /// What is to be mended before the first of the files can be read, if anything is.
    fn mend(&self) -> Option<Mend<'a>> {
        for (name, how) in &self.verified.comparison.files {
            let file = BadFile::new(&self.verified.catalog, *name, difference_problem(*how));
            let mend = Mend::of(self.at, &file);
            if mend.is_some() {
                return mend;
            }
        }
        None
    }

    /// What to do next, if anything differs.
    pub fn next(&self) -> Option<NextStep<'a>> {
        if self.verified.status() == DONE {
            return None;
        }
        Some(match self.mend() {
            Some(mend) => NextStep::Again(mend),
            None => NextStep::DiagnoseBy(self.at.words()),
        })
    }
}

impl fmt::Display for VerifiedText<'_> {
    fn fmt<W: fmt::Write>(&self, f: &mut fmt::Formatter<W>) -> fmt::Result {
        let (verified, at) = (self.verified, self.at);
        let comparison = &verified.comparison;
        if let Some(how) = comparison.catalog {
            let word = difference_problem(how).word();
            writeln!(f, "{word}  {CATALOG}")?;
        }
        for (name, how) in &comparison.files {
            let file = &BadFile::new(&verified.catalog, *name, difference_problem(*how));
            let line = BadFileLine { file, at };
            write!(f, "{line}")?;
        }
        if verified.status() == DONE {
            let files = verified.files;
            writeln!(f, "ok files={files}")?;
        }
        let next = NextLine(self.next());
        write!(f, "{next}")
    }
}
