//! What a restore answers where it is doubtful what was lost.
ghost use Rattle.std.specs.Prelude.{◌≡◌, ◌≤◌, ◌↔◌, ◌==◌, ◌&&◌, ◌||◌, ℕ, IsTrue};
ghost use Rattle.cs_schema.specs.Lists.{member};
ghost use Rattle.pinepolo_answers.specs.Spare.{IsSpare, Spares};

use crate::diagnosed::Diagnosed;
use cs_design::within::is_within;
use cs_diagnosis::{Diagnosis, Explanation};
use cs_schema::Loss;

/// A loss that a diagnosis makes doubtful. Nothing was changed by it.
#[derive(Drop)]
pub struct Doubted {
    pub diagnosed: Diagnosed,
    /// The sites that were said to be lost.
    pub lost: Loss,
    /// Whether an unfinished restore was resumed.
    pub resumes: bool,
}

/// Whether an explanation is within a loss, and does without this site of it.
fn spares(explanation: &Explanation, loss: Loss, site: u8) -> bool
    requires { (1 ≤ site) × (site ≤ 16) }
    ensures { IsTrue result ↔ Spares explanation.now loss site }
{
    loss.has(site) && is_within(explanation.loss, loss) && !explanation.loss.has(site)
}

/// Whether an explanation does without this site of a loss.
fn is_spare(found: &[Explanation], loss: Loss, site: u8) -> bool
    requires { (1 ≤ site) × (site ≤ 16) }
    ensures { IsTrue result ↔ IsSpare found.now loss site }
{
    for explanation in found {
        if spares(explanation, loss, site) {
            return true;
        }
    }
    false
}

/// A loss, with one more site if it is to be added.
fn with_if(loss: Loss, site: u8, adds: bool) -> Loss
    requires { (1 ≤ site) × (site ≤ 16) }
    ensures { (s : ℕ) → member result s ≡ ((adds && s == site) || member loss s) }
{
    if adds { loss.with(site) } else { loss }
}

/// The sites of a loss without which it is accepted with the same table.
pub fn spare_sites(diagnosis: &Diagnosis, loss: Loss) -> Loss
    ensures { (s : ℕ) → 1 ≤ s → s ≤ 16 → IsTrue (member result s) ↔ IsSpare diagnosis.now.explanations.items loss s }
{
    let found = diagnosis.explanations.as_slice();
    let mut spare = Loss::none();
    for site in 1..17u8 {
        spare = with_if(spare, site, is_spare(found, loss, site));
    }
    spare
}
