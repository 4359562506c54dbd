//! What a check answers, in words.
use crate::at::At;
use crate::bad_files::{BadLines, mend_of};
use crate::next_step::{NextLine, NextStep, Restoring};
use crate::sited::AwayLines;
use crate::unfinished::write_unfinished;
use cs_reports::FaultWords;
use cs_safety::safe;
use cs_store::Fault;
use pinepolo_answers::{Checked, Verdict};
use std::fmt;

/// What is wrong with a store that is not sound, in words of one line.
#[derive(Clone, Copy)]
pub struct Wrong<'a>(pub &'a Checked);

impl fmt::Display for Wrong<'_> {
    fn fmt<W: fmt::Write>(&self, f: &mut fmt::Formatter<W>) -> fmt::Result {
        let checked = self.0;
        let catalog = &checked.catalog;
        match &checked.verdict {
            Verdict::Sound { .. } => Ok(()),
            Verdict::Fatal { k, loss } => {
                let fault = &Fault::Unsafe(*loss);
                let words = FaultWords { catalog, fault };
                write!(f, "k={k} is too high, {words}")
            }
            Verdict::BadFiles => {
                let count = checked.bad.len();
                write!(f, "bad files: {count}")
            }
            Verdict::Unsound(fault) => {
                let words = FaultWords { catalog, fault };
                write!(f, "{words}")
            }
        }
    }
}

/// What a check of a store found, as lines.
#[derive(Clone, Copy)]
pub struct CheckedText<'a> {
    pub checked: &'a Checked,
    pub at: At<'a>,
}

impl<'a> CheckedText<'a> {
    /// What to do next about bad files.
    fn recovery(&self) -> NextStep<'a> {
        let (checked, at) = (self.checked, self.at);
        let loss = checked.bad_sites();
        let mend = mend_of(at, &checked.catalog, checked.bad.as_slice());
        if safe(&checked.catalog, loss) {
            return NextStep::Restore(Restoring {
                at,
                verb: "check",
                mend,
                accepts_loss: false,
                loss,
            });
        }
        match mend {
            Some(mend) => NextStep::Again(mend),
            None => NextStep::BringBack(loss),
        }
    }

    /// What to do next, if anything.
    pub fn next(&self) -> Option<NextStep<'a>> {
        let store = self.at.words();
        if let Some(kind) = self.checked.unfinished {
            return Some(NextStep::Resume(kind, store));
        }
        match &self.checked.verdict {
            Verdict::Sound { .. } => None,
            Verdict::BadFiles => Some(self.recovery()),
            Verdict::Fatal { .. } => Some(NextStep::Ask("design", store)),
            Verdict::Unsound(fault) => Some(NextStep::ByFault(*fault, store)),
        }
    }
}

impl fmt::Display for CheckedText<'_> {
    fn fmt<W: fmt::Write>(&self, f: &mut fmt::Formatter<W>) -> fmt::Result {
        let (checked, at) = (self.checked, self.at);
        let lines = BadLines {
            catalog: &checked.catalog,
            bad: checked.bad.as_slice(),
            changed: &[],
            at,
        };
        let away = AwayLines(at);
        write!(f, "{away}{lines}")?;
        match &checked.verdict {
            Verdict::Sound { rows, k } => writeln!(f, "ok rows={rows} k={k}")?,
            _ => {
                let (prefix, wrong) = (at.prefix, Wrong(checked));
                writeln!(f, "{prefix}fault: {wrong}")?;
            }
        }
        write_unfinished(f, checked.unfinished)?;
        let next = NextLine(self.next());
        write!(f, "{next}")
    }
}
