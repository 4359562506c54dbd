//! What is said of an error, and what to do next.
use crate::failure_texts::failure_text;
use crate::refusal_texts::refusal_texts;
use crate::sites_words::sites_advice;
use cs_store::Fault;
use pinepolo_places::{Halfway, Step, StoreError, VerbError, WorkKind};

/// What is said of an error, in texts with the places of those of refusals.
#[derive(Clone, Copy)]
pub struct ErrorTexts {
    /// What failed, or is refused.
    pub said: &'static str,
    /// What was found to be wrong, if no call failed; empty if that is not known.
    pub found: &'static str,
    /// What it means for the work that failed; empty if it changed nothing.
    pub state: &'static str,
    /// What to do next, if it is not known what is to be mended; empty if that is what the fault asks for.
    pub next: &'static str,
    /// What to do once it is mended.
    pub again: &'static str,
}

/// The texts of an error at which no call can have failed.
const fn plain(said: &'static str, next: &'static str) -> ErrorTexts {
    ErrorTexts {
        said,
        found: "",
        state: "",
        next,
        again: "run it again",
    }
}

/// The texts of a fault of a store.
fn store_texts(error: &StoreError) -> ErrorTexts {
    let said = if error.bad.is_empty() {
        "{2}"
    } else {
        "bad files: {3}"
    };
    let next = match (error.step, &error.fault) {
        (Step::ByFault, Fault::Read(_)) => {
            return plain(said, "pinepolo diagnose {5}");
        }
        (Step::ByFault, _) => return plain(said, ""),
        (Step::Resume(kind), _) | (Step::GoOn(Halfway { kind, .. }), _) => match kind {
            WorkKind::Restore => "pinepolo restore --resume {5}",
            WorkKind::Undo => "pinepolo undo --resume {5}",
        },
        (Step::Diagnose, _) => "pinepolo diagnose {5}",
    };
    ErrorTexts {
        again: next,
        ..plain(said, next)
    }
}

/// What is said of an error, and what to do next.
pub fn error_texts(error: &VerbError) -> ErrorTexts {
    match error {
        VerbError::NotUtf8 => plain(
            "the command line is not UTF-8",
            "give each word and each path in UTF-8",
        ),
        VerbError::OutOfMemory => plain(
            "out of memory",
            "run it with fewer workers, or with more memory: pinepolo show STORE says about how much a recovery takes",
        ),
        VerbError::Catalog(_, subject) => {
            let said = if subject.words.is_empty() {
                "{0}: {3}"
            } else {
                "{0}: {3}: {2}"
            };
            plain(said, "change it, then pinepolo design {5}")
        }
        VerbError::Device(failure, _) => failure_text(failure),
        VerbError::Refused(refusal, _) => {
            let (said, next) = refusal_texts(refusal);
            plain(said, next)
        }
        VerbError::Sites(error) => plain("", sites_advice(error)),
        VerbError::Store(error) => store_texts(error),
    }
}
