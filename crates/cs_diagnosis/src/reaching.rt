//! How many sites a diagnosis tries, and for how many changed sites its result is certain.
ghost use Rattle.std.specs.Prelude.{◌≡◌, ℕ, ◌+◌, ◌<◌, ◌≤◌, Some, None, IfSome, MatchOption, length};
ghost use Rattle.cs_schema.specs.Losses.{IsLoss};
ghost use Rattle.cs_diagnosis.specs.Reach.{IsGreatestCorrected, IsReach};

use cs_design::greatest_k;
use cs_schema::{Catalog, Loss};

/// How many sites a diagnosis tries, and for how many changed sites its result is certain.
#[derive(Clone, Copy, Debug, PartialEq, Eq)]
pub struct Reach {
    /// The maximum number of sites of a loss that is tried.
    pub at_most: u8,
    /// If the verdict is one table, it is the original, provided that at most this many sites besides the forced ones
    /// were changed. `None` if the table is never certain.
    pub certain: Option<u8>,
}

/// The maximum number of sites besides `forced` forced ones that may be changed such that the table is still found;
/// `None` if the forced ones are too many.
fn corrected(catalog: &Catalog, forced: u8) -> Option<u8>
    ensures greatest { IsGreatestCorrected catalog.now forced result }
    ensures few { IfSome result (λ most. forced + most ≤ 16) }
{
    let _rules = catalog.projection_count();
    match greatest_k(catalog, Loss::none()) {
        Some(k) => {
            if forced <= k {
                Some((k - forced) / 2)
            } else {
                None
            }
        }
        None => None,
    }
}

/// The number of sites of the largest losses to try: as asked for, or else as many as are needed, and at least one.
fn tried(forced: u8, most: u8, asked: Option<u8>) -> u8
    requires sites { forced + most ≤ 16 }
    requires asked { IfSome asked (λ n. n ≤ 16) }
    ensures few { result ≤ 16 }
    ensures asked_for { (n : ℕ) → asked ≡ Some n → result ≡ n }
    ensures far { asked ≡ None → (1 ≤ result) × (forced + most ≤ result) }
    ensures near { asked ≡ None → (n : ℕ) → 1 ≤ n → forced + most ≤ n → result ≤ n }
{
    match asked {
        Some(sites) => sites,
        None => { if forced + most == 0 { 1 } else { forced + most } }
    }
}

/// The maximum number of changed sites, of at most `most`, that losses of at most `at_most` sites correct; `None` if
/// `at_most` is less than `forced`.
fn certain_by(forced: u8, most: u8, at_most: u8) -> Option<u8>
    ensures { MatchOption result (at_most < forced) (λ m. (m ≤ most) × (forced + m ≤ at_most) × ((n : ℕ) → n ≤ most → forced + n ≤ at_most → n ≤ m)) }
{
    if at_most < forced {
        return None;
    }
    if at_most - forced < most {
        Some(at_most - forced)
    } else {
        Some(most)
    }
}

/// How many sites to try, including the forced ones: as many as asked for, or else as few as correct the maximum number
/// of changed sites, and at least one.
pub fn reach_of(catalog: &Catalog, forced: Loss, asked: Option<u8>) -> Reach
    requires forced { IsLoss catalog.now forced }
    requires asked { IfSome asked (λ n. n ≤ 16) }
    ensures { IsReach catalog.now (length forced) asked result }
{
    let _rules = catalog.projection_count();
    let count = forced.count();
    match corrected(catalog, count) {
        Some(most) => {
            let at_most = tried(count, most, asked);
            Reach {
                at_most,
                certain: certain_by(count, most, at_most),
            }
        }
        None => Reach {
            at_most: tried(count, 0, asked),
            certain: None,
        },
    }
}
