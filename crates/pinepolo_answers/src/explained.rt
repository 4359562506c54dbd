//! The loss that explains a store with one table.
ghost use Rattle.pinepolo_answers.specs.OnlyLoss.{IsOnlyLoss};

use cs_diagnosis::{Diagnosis, Verdict};
use cs_schema::Loss;

/// The first explanation, if one table explains the store.
pub fn only_loss(diagnosis: &Diagnosis) -> Option<Loss>
    ensures { IsOnlyLoss diagnosis.now result }
{
    match diagnosis.verdict {
        Verdict::OneTable => match diagnosis.explanations.first() {
            Some(first) => Some(first.loss),
            None => None,
        },
        _ => None,
    }
}
