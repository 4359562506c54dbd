//! How many sites may fail, whichever they are.
ghost use Rattle.std.specs.Prelude.{◌≡◌, ℕ, ◌+◌, ◌<◌, ◌≤◌, IsTrue, MatchBool};
ghost use Rattle.cs_schema.specs.Lists.{member};
ghost use Rattle.cs_design.specs.Fatal.{IsGreatestK};
ghost use Rattle.cs_design.specs.Tails.{HasUnsafeTail, AreTailsSafe};

use crate::fatal::safe_with;
use crate::order::site_count;
use cs_safety::safe;
use cs_schema::{Catalog, Loss};

/// Whether some loss that adds `count` sites, from `from` on, to the chosen ones is unsafe together with what is lost
/// already.
fn has_unsafe(catalog: &Catalog, lost: Loss, chosen: Loss, from: u8, count: u8) -> bool
    requires low { 1 ≤ from }
    requires high { from ≤ catalog.now.sites + 1 }
    requires below { (x : ℕ) → IsTrue (member chosen x) → x < from }
    ensures { MatchBool result (HasUnsafeTail catalog.now lost chosen from count) (AreTailsSafe catalog.now lost chosen from count) }
{
    if count == 0 {
        return !safe_with(catalog, lost, chosen);
    }
    for site in from..site_count(catalog) + 1 {
        if has_unsafe(catalog, lost, chosen.with(site), site + 1, count - 1) {
            return true;
        }
    }
    false
}

/// The greatest number such that every loss of at most that many sites is safe together with what is `lost` already;
/// `None` if that is unsafe itself. Does not allocate.
pub fn greatest_k(catalog: &Catalog, lost: Loss) -> Option<u8>
    ensures { IsGreatestK catalog.now lost result }
{
    if !safe(catalog, lost) {
        return None;
    }
    for count in 1..site_count(catalog) + 1 {
        if has_unsafe(catalog, lost, Loss::none(), 1, count) {
            return Some(count - 1);
        }
    }
    // the loss of all sites is unsafe
    unreachable!()
}
