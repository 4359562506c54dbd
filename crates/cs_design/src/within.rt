//! Losses as sets: contained in another, sharing a site, united.
ghost use Rattle.std.specs.Prelude.{◌≡◌, ◌↔◌, IsTrue, MatchBool};
ghost use Rattle.cs_safety.specs.Within.{IsWithin};
ghost use Rattle.cs_design.specs.Fatal.{either, HoldsOne, SharesSite, IsApart};

use cs_schema::Loss;

/// Whether a loss is contained in another.
pub fn is_within(loss: Loss, other: Loss) -> bool
    ensures { IsTrue result ↔ IsWithin loss other }
{
    for site in 1..17u8 {
        if loss.has(site) && !other.has(site) {
            return false;
        }
    }
    true
}

/// Whether two losses share a site.
pub fn shares_site(loss: Loss, other: Loss) -> bool
    ensures { MatchBool result (SharesSite loss other) (IsApart loss other) }
{
    for site in 1..17u8 {
        if loss.has(site) && other.has(site) {
            return true;
        }
    }
    false
}

/// Whether a loss contains one of these.
pub fn holds_one(losses: &[Loss], loss: Loss) -> bool
    ensures { IsTrue result ↔ HoldsOne losses.now loss }
{
    for each in losses {
        if is_within(*each, loss) {
            return true;
        }
    }
    false
}

/// The union of two losses.
pub fn either(first: Loss, second: Loss) -> Loss
    ensures { result ≡ either first second }
{
    let mut both = Loss::none();
    for site in 1..17u8 {
        let in_first = first.has(site);
        if second.has(site) || in_first {
            both = both.with(site);
        }
    }
    both
}
