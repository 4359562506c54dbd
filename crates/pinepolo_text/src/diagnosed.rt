//! What a diagnosis answers, in words.
use crate::at::At;
use crate::bad_files::{BadLines, mend_of};
use crate::disputed::DisputeLines;
use crate::explained::{ExplanationLines, VerdictLine};
use crate::next_step::{NextLine, NextStep, Restoring};
use crate::sited::AwayLines;
use crate::unfinished::write_unfinished;
use crate::unrecoverable::BringBack;
use cs_diagnosis::Verdict;
use pinepolo_answers::{Diagnosed, only_loss, reads_well};
use std::fmt;

/// What a diagnosis of a store found, as lines.
#[derive(Clone, Copy)]
pub struct DiagnosedText<'a> {
    pub diagnosed: &'a Diagnosed,
    pub at: At<'a>,
}

impl<'a> DiagnosedText<'a> {
    /// The restoring that one table allows, or what makes it needless.
    fn restoring(&self) -> Option<NextStep<'a>> {
        let (diagnosed, at) = (self.diagnosed, self.at);
        let loss = only_loss(&diagnosed.diagnosis)?;
        Some(NextStep::Restore(Restoring {
            at,
            verb: "diagnose",
            mend: mend_of(at, &diagnosed.catalog, diagnosed.diagnosis.bad.as_slice()),
            // (a restore finds nothing wrong with what a manifest alone says is changed)
            accepts_loss: reads_well(diagnosed.changed.as_slice()),
            loss,
        }))
    }

    /// The sites that lack too much, if nothing explains the store.
    fn lacking(&self) -> BringBack<'a> {
        BringBack {
            catalog: &self.diagnosed.catalog,
            forced: self.diagnosed.diagnosis.forced,
        }
    }

    /// What to do next about a store that nothing explains.
    fn bringing_back(&self) -> Option<NextStep<'a>> {
        let diagnosis = &self.diagnosed.diagnosis;
        match mend_of(self.at, &self.diagnosed.catalog, diagnosis.bad.as_slice()) {
            Some(mend) => Some(NextStep::Again(mend)),
            None => self
                .lacking()
                .next(diagnosis.reach.at_most, self.at.words()),
        }
    }

    /// What to do next, if anything.
    pub fn next(&self) -> Option<NextStep<'a>> {
        let store = self.at.words();
        if let Some(kind) = self.diagnosed.unfinished {
            return Some(NextStep::Resume(kind, store));
        }
        match self.diagnosed.diagnosis.verdict {
            Verdict::Sound => None,
            Verdict::OneTable => self.restoring(),
            Verdict::Ambiguous => Some(NextStep::Compare(store)),
            Verdict::NotRecoverable => self.bringing_back(),
        }
    }

    /// The sites whose files must be replaced.
    fn write_forced<W: fmt::Write>(&self, f: &mut fmt::Formatter<W>) -> fmt::Result {
        let forced = self.diagnosed.diagnosis.forced;
        if forced.count() == 0 {
            return Ok(());
        }
        writeln!(f, "must be replaced: sites {forced}")
    }

    /// What must not be lost after the first explanation.
    fn write_fatal<W: fmt::Write>(&self, f: &mut fmt::Formatter<W>) -> fmt::Result {
        if self.diagnosed.fatal.is_empty() {
            return Ok(());
        }
        let mut separator = "then fatal: ";
        for loss in &self.diagnosed.fatal {
            write!(f, "{separator}{loss}")?;
            separator = "  ";
        }
        writeln!(f)
    }

    /// Where the tables differ.
    fn write_disputes<W: fmt::Write>(&self, f: &mut fmt::Formatter<W>) -> fmt::Result {
        for of in &self.diagnosed.disputes {
            let lines = DisputeLines {
                catalog: &self.diagnosed.catalog,
                diagnosis: &self.diagnosed.diagnosis,
                of,
            };
            write!(f, "{lines}")?;
        }
        Ok(())
    }

    /// What to do next, with what tells it.
    fn write_end<W: fmt::Write>(&self, f: &mut fmt::Formatter<W>) -> fmt::Result {
        match self.diagnosed.diagnosis.verdict {
            Verdict::Ambiguous => self.write_disputes(f)?,
            Verdict::NotRecoverable => {
                let lacking = self.lacking();
                write!(f, "{lacking}")?;
            }
            _ => {}
        }
        let next = NextLine(self.next());
        write!(f, "{next}")?;
        self.write_fatal(f)
    }

    /// The bad files, the explanations and the verdict.
    pub(crate) fn write_found<W: fmt::Write>(&self, f: &mut fmt::Formatter<W>) -> fmt::Result {
        let diagnosis = &self.diagnosed.diagnosis;
        let bad = BadLines {
            catalog: &self.diagnosed.catalog,
            bad: diagnosis.bad.as_slice(),
            changed: self.diagnosed.changed.as_slice(),
            at: self.at,
        };
        write!(f, "{bad}")?;
        self.write_forced(f)?;
        let (explanations, verdict) = (ExplanationLines(diagnosis), VerdictLine(diagnosis));
        write!(f, "{explanations}{verdict}")
    }
}

impl fmt::Display for DiagnosedText<'_> {
    fn fmt<W: fmt::Write>(&self, f: &mut fmt::Formatter<W>) -> fmt::Result {
        let away = AwayLines(self.at);
        write!(f, "{away}")?;
        match self.diagnosed.diagnosis.verdict {
            Verdict::Sound => {
                let verdict = VerdictLine(&self.diagnosed.diagnosis);
                write!(f, "{verdict}")?;
            }
            _ => self.write_found(f)?,
        }
        if self.diagnosed.unfinished.is_some() {
            write_unfinished(f, self.diagnosed.unfinished)?;
            let next = NextLine(self.next());
            return write!(f, "{next}");
        }
        self.write_end(f)
    }
}
