//! What is known while losses are tried.
ghost use Rattle.std.specs.Prelude.{◌≡◌, ℕ, [], Some, MatchOption};
ghost use Rattle.std.specs.List.{slice_get};
ghost use Rattle.cs_schema.specs.CatalogData.{CatalogData};
ghost use Rattle.cs_schema.specs.FileNames.{FileContents};
ghost use Rattle.cs_schema.specs.Losses.{Sites};
ghost use Rattle.cs_diagnosis.specs.Conflicts.{AreAllHit};
ghost use Rattle.cs_diagnosis.specs.declared.conflicts.Conflicts.{Conflicts as ConflictsData};
ghost use Rattle.cs_diagnosis.specs.Known.{IsKnown};

use crate::Conflicts;
use crate::walks::Walks;
use cs_schema::Loss;
use std::alloc::Global;

/// What is known while losses are tried: the conflicts of each table that was found, and the results of walked plans.
#[derive(Drop)]
pub struct Known {
    pub conflicts: Vec<Conflicts>,
    pub walks: Walks,
}

impl Known {
    /// Nothing is known yet.
    pub fn new(alloc: Global) -> Self
        ensures { (C : CatalogData) (F : FileContents) (first : Sites) → IsKnown C F first [] result }
    {
        Known {
            conflicts: Vec::new(alloc),
            walks: Walks::new(alloc),
        }
    }

    /// The index of a known table that the survivors of a loss hold.
    pub fn table_of(&self, loss: Loss) -> Option<usize>
        ensures { MatchOption result ((n : ℕ) (c : ConflictsData) → slice_get self.now.conflicts.items n ≡ Some c → ¬ AreAllHit c loss)
            (λ n. (c : ConflictsData) × (slice_get self.now.conflicts.items n ≡ Some c) × AreAllHit c loss) }
    {
        for (place, conflicts) in self.conflicts.iter().enumerate() {
            if conflicts.are_hit(loss) {
                return Some(place);
            }
        }
        None
    }
}
