//! What a restore answers that finds by itself what was lost, in words.
use crate::at::At;
use crate::diagnosed::DiagnosedText;
use crate::doubted::DoubtedText;
use crate::next_step::NextStep;
use crate::restored::RestoredText;
use cs_diagnosis::Verdict;
use pinepolo_answers::{FoundRestore, Restoration};
use std::fmt;

/// A store that was diagnosed, and what was done for it, as lines.
#[derive(Clone, Copy)]
pub struct FoundText<'a> {
    pub found: &'a FoundRestore,
    pub at: At<'a>,
}

impl<'a> FoundText<'a> {
    /// What to do next, if the store was not restored.
    pub fn next(&self) -> Option<NextStep<'a>> {
        let (found, at) = (self.found, self.at);
        match &found.restoration {
            Some(Restoration::Done(_)) => None,
            Some(Restoration::Doubted(doubted)) => Some(DoubtedText { doubted, at }.next()),
            None => {
                let diagnosed = &found.diagnosed;
                DiagnosedText { diagnosed, at }.next()
            }
        }
    }
}

impl fmt::Display for FoundText<'_> {
    fn fmt<W: fmt::Write>(&self, f: &mut fmt::Formatter<W>) -> fmt::Result {
        let at = self.at;
        let diagnosed = &self.found.diagnosed;
        let text = DiagnosedText { diagnosed, at };
        match &self.found.restoration {
            Some(Restoration::Done(restored)) => {
                text.write_found(f)?;
                let restored = RestoredText(restored);
                write!(f, "{restored}")
            }
            Some(Restoration::Doubted(doubted)) => {
                let text = DoubtedText { doubted, at };
                write!(f, "{text}")
            }
            None => {
                write!(f, "{text}")?;
                match diagnosed.diagnosis.verdict {
                    Verdict::Sound => f.write_str("nothing to restore\n"),
                    _ => f.write_str("not restored\n"),
                }
            }
        }
    }
}
