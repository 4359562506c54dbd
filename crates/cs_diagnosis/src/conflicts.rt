//! The conflicts of a table.
ghost use Rattle.cs_diagnosis.specs.Pairs.{AreKeptOnce};

use cs_design::within::is_within;
use cs_schema::Loss;

/// The pairs of sites with which a table is in conflict. A loss that is accepted with the table contains a site of each
/// pair.
#[derive(Clone, Copy)]
pub struct Conflicts {
    /// For each site from 1 to 16, the sites from it on with which it is in conflict; this includes itself if one of
    /// its files contradicts the table by itself. So each pair is stored once, and there are at most 136.
    pub with: [Loss; 16],
    pub ghost once: { AreKeptOnce with },
}

impl Conflicts {
    ghost use Rattle.std.specs.Prelude.{◌≡◌, ◌≤◌, ◌⊎◌, ◌↔◌, IsTrue};
    ghost use Rattle.cs_schema.specs.Lists.{member};
    ghost use Rattle.cs_schema.specs.Losses.{Sites};
    ghost use Rattle.cs_diagnosis.specs.Conflicts.{AreAllHit};

    /// No conflicts.
    pub(crate) fn none() -> Self
        ensures { (L : Sites) → AreAllHit result L }
    {
        Conflicts {
            with: [Loss::none(); 16],
        }
    }

    /// These conflicts and one more, between two sites or of a single site.
    pub(crate) fn with_pair(&self, first: u8, second: u8) -> Self
        requires first { (1 ≤ first) × (first ≤ 16) }
        requires second { (1 ≤ second) × (second ≤ 16) }
        ensures { (L : Sites) → AreAllHit result L ↔ (AreAllHit self.now L × (IsTrue (member L first) ⊎ IsTrue (member L second))) }
    {
        let (low, high) = if first < second {
            (first, second)
        } else {
            (second, first)
        };
        let mut with = self.with;
        let place = low as usize - 1;
        with[place] = with[place].with(high);
        Conflicts { with }
    }

    /// Whether a loss contains a site of each conflict.
    pub fn are_hit(&self, loss: Loss) -> bool
        ensures { IsTrue result ↔ AreAllHit self.now loss }
    {
        for site in 1..17u8 {
            if !loss.has(site) && !is_within(self.with[site as usize - 1], loss) {
                return false;
            }
        }
        true
    }
}
