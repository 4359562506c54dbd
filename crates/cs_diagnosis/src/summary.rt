//! The verdict on explanations.
ghost use Rattle.std.specs.Prelude.{◌≡◌};
ghost use Rattle.cs_diagnosis.specs.Summary.{verdict_for};

use crate::findings::{Explanation, Verdict};

/// The verdict on explanations in the order of losses that have `tables` distinct tables.
pub fn verdict_of(explanations: &[Explanation], tables: usize) -> Verdict
    ensures { result ≡ verdict_for explanations.now tables }
{
    match explanations.first() {
        None => Verdict::NotRecoverable,
        Some(first) => {
            if first.loss.count() == 0 {
                Verdict::Sound
            } else if tables == 1 {
                Verdict::OneTable
            } else {
                Verdict::Ambiguous
            }
        }
    }
}
