//! What a verb did, in words.
use crate::at::At;
use crate::checked::CheckedText;
use crate::designed::DesignedText;
use crate::diagnosed::DiagnosedText;
use crate::doubted::DoubtedText;
use crate::drilled::DrilledText;
use crate::dumped::DumpedText;
use crate::file_text::FileText;
use crate::found_restore::FoundText;
use crate::listed::ListedText;
use crate::new_store::NewStoreText;
use crate::next_step::NextStep;
use crate::recovered::RecoveredText;
use crate::restored::RestoredText;
use crate::store_text::StoreText;
use crate::undone::UndoneText;
use crate::verified::VerifiedText;
use pinepolo_answers::{Answer, Restoration};
use std::fmt;

/// What a verb did, as lines.
#[derive(Clone, Copy)]
pub struct AnswerText<'a> {
    pub answer: &'a Answer,
    /// Where the store is that the verb was given, or its catalog.
    pub at: At<'a>,
}

impl fmt::Display for AnswerText<'_> {
    fn fmt<W: fmt::Write>(&self, f: &mut fmt::Formatter<W>) -> fmt::Result {
        let at = self.at;
        match self.answer {
            Answer::Checked(checked) => write!(f, "{}", CheckedText { checked, at }),
            Answer::Drilled(drilled) => write!(f, "{}", DrilledText { drilled, at }),
            Answer::Shown(view) => write!(f, "{}", StoreText { view, at }),
            Answer::ShownFile(view) => write!(f, "{}", FileText { view, at }),
            Answer::Diagnosed(diagnosed) => write!(f, "{}", DiagnosedText { diagnosed, at }),
            Answer::Recovered(recovered) => write!(f, "{}", RecoveredText(recovered)),
            Answer::Restored(Restoration::Done(restored)) => write!(
                f,
                "{}",
                RestoredText(restored)
            ),
            Answer::Restored(Restoration::Doubted(doubted)) => {
                write!(f, "{}", DoubtedText { doubted, at })
            }
            Answer::RestoredFound(found) => write!(f, "{}", FoundText { found, at }),
            Answer::Listed(listed) => write!(f, "{}", ListedText { listed, at }),
            Answer::Verified(verified) => write!(f, "{}", VerifiedText { verified, at }),
            Answer::Undone(undone) => write!(f, "{}", UndoneText(undone)),
            Answer::Designed(designed) => write!(f, "{}", DesignedText(designed)),
            Answer::Loaded(made) | Answer::Relaid(made) => write!(f, "{}", NewStoreText(made)),
            Answer::Dumped(dumped) => write!(f, "{}", DumpedText(dumped)),
        }
    }
}

impl<'a> AnswerText<'a> {
    /// What to do next, if anything.
    pub fn next(&self) -> Option<NextStep<'a>> {
        let at = self.at;
        match self.answer {
            Answer::Checked(checked) => CheckedText { checked, at }.next(),
            Answer::Drilled(drilled) => DrilledText { drilled, at }.next(),
            Answer::Shown(view) => StoreText { view, at }.next(),
            Answer::ShownFile(view) => FileText { view, at }.next(),
            Answer::Diagnosed(diagnosed) => DiagnosedText { diagnosed, at }.next(),
            Answer::Restored(Restoration::Doubted(doubted)) => {
                Some(DoubtedText { doubted, at }.next())
            }
            Answer::RestoredFound(found) => FoundText { found, at }.next(),
            Answer::Listed(listed) => ListedText { listed, at }.next(),
            Answer::Verified(verified) => VerifiedText { verified, at }.next(),
            Answer::Dumped(dumped) => {
                let kind = dumped.unfinished?;
                Some(NextStep::Resume(kind, at.words()))
            }
            Answer::Recovered(_)
            | Answer::Restored(Restoration::Done(_))
            | Answer::Undone(_)
            | Answer::Designed(_)
            | Answer::Loaded(_)
            | Answer::Relaid(_) => None,
        }
    }
}
