//! What a restore answers if it is doubtful what was lost, in words.
use crate::at::At;
use crate::diagnosed::DiagnosedText;
use crate::next_step::NextStep;
use pinepolo_answers::{Doubted, spare_sites};
use std::fmt;

/// What makes a restore of a store doubtful, as lines.
#[derive(Clone, Copy)]
pub struct DoubtedText<'a> {
    pub doubted: &'a Doubted,
    pub at: At<'a>,
}

impl<'a> DoubtedText<'a> {
    /// How the loss is accepted.
    fn accepting(&self) -> NextStep<'a> {
        let (lost, store) = (self.doubted.lost, self.at.words());
        if self.doubted.resumes {
            NextStep::AcceptResumed(lost, store)
        } else {
            NextStep::Accept(lost, store)
        }
    }

    /// What to do next: what the diagnosis says comes before the loss is accepted.
    pub fn next(&self) -> NextStep<'a> {
        let text = DiagnosedText {
            diagnosed: &self.doubted.diagnosed,
            at: self.at,
        };
        match text.next() {
            Some(step) => step,
            None => self.accepting(),
        }
    }
}

impl fmt::Display for DoubtedText<'_> {
    fn fmt<W: fmt::Write>(&self, f: &mut fmt::Formatter<W>) -> fmt::Result {
        let lost = self.doubted.lost;
        let diagnosed = &self.doubted.diagnosed;
        let text = DiagnosedText {
            diagnosed,
            at: self.at,
        };
        write!(f, "{text}")?;
        let spare = spare_sites(&diagnosed.diagnosis, lost);
        if spare.count() == 0 {
            writeln!(
                f,
                "not restored: the loss of {lost} gives one table, and another loss a different one"
            )?;
        }
        for site in 1..17u8 {
            if spare.has(site) {
                writeln!(
                    f,
                    "not restored: the loss of {lost} is accepted without site {site}, with the same table"
                )?;
            }
        }
        let accepting = self.accepting();
        writeln!(f, "{accepting}")
    }
}
