//! What a drill answers, in words.
use crate::at::At;
use crate::next_step::{NextLine, NextStep};
use crate::trial_words::{Lost, MeasureWords, TrialLine};
use pinepolo_answers::Drilled;
use std::fmt;

/// What a drill of a store found, as lines.
#[derive(Clone, Copy)]
pub struct DrilledText<'a> {
    pub drilled: &'a Drilled,
    pub at: At<'a>,
}

impl<'a> DrilledText<'a> {
    /// What to do next, if a loss failed.
    pub fn next(&self) -> Option<NextStep<'a>> {
        if self.drilled.failures() == 0 {
            return None;
        }
        let verb = if self.drilled.fails_by_design() {
            "design"
        } else {
            "diagnose"
        };
        Some(NextStep::Ask(verb, self.at.words()))
    }

    /// The verdict, and what to do next.
    fn write_verdict<W: fmt::Write>(&self, f: &mut fmt::Formatter<W>) -> fmt::Result {
        let drilled = self.drilled;
        let (losses, sites) = (drilled.trials.len(), drilled.at_most);
        let failures = drilled.failures();
        if failures == 0 {
            return writeln!(f, "ok losses={losses} at_most={sites}");
        }
        let prefix = self.at.prefix;
        writeln!(
            f,
            "{prefix}fault: {failures} of {losses} losses are not rebuilt as the store stands"
        )?;
        let next = NextLine(self.next());
        write!(f, "{next}")
    }
}

impl fmt::Display for DrilledText<'_> {
    fn fmt<W: fmt::Write>(&self, f: &mut fmt::Formatter<W>) -> fmt::Result {
        let drilled = self.drilled;
        for (trial, measure) in drilled.trials.iter().zip(drilled.measures.iter()) {
            let line = TrialLine {
                catalog: &drilled.catalog,
                trial,
                measure: *measure,
            };
            write!(f, "{line}")?;
        }
        if let Some((loss, measure)) = drilled.slowest() {
            let (lost, measure) = (Lost(loss), MeasureWords(measure));
            writeln!(f, "slowest: lost {lost}  {measure}")?;
        }
        self.write_verdict(f)
    }
}
