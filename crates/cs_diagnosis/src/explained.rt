//! The losses that known explanations cover.
ghost use Rattle.std.specs.Prelude.{◌↔◌, IsTrue};
ghost use Rattle.cs_safety.specs.Within.{IsWithin};
ghost use Rattle.cs_diagnosis.specs.Findings.{IsExplained, IsFound};

use crate::findings::Explanation;
use cs_design::within::is_within;
use cs_schema::Loss;

/// Whether a loss contains an explanation.
pub fn is_explained(found: &[Explanation], loss: Loss) -> bool
    ensures { IsTrue result ↔ IsExplained found.now loss }
{
    for explanation in found {
        if is_within(explanation.loss, loss) {
            return true;
        }
    }
    false
}

/// Whether two losses have the same sites.
fn are_same(loss: Loss, other: Loss) -> bool
    ensures { IsTrue result ↔ (IsWithin loss other × IsWithin other loss) }
{
    is_within(loss, other) && is_within(other, loss)
}

/// Whether a loss is one of the explanations.
pub fn is_found(found: &[Explanation], loss: Loss) -> bool
    ensures { IsTrue result ↔ IsFound found.now loss }
{
    for explanation in found {
        if are_same(explanation.loss, loss) {
            return true;
        }
    }
    false
}
