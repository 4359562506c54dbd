//! The search for explanations. Losses are tried in ascending order.
ghost use Rattle.std.specs.Prelude.{MatchBool};
ghost use Rattle.cs_diagnosis.specs.Tried.{MayExplain, IsRuledOut};

use crate::explained::is_explained;
use crate::findings::Explanation;
use cs_design::within::is_within;
use cs_safety::safe;
use cs_schema::{Catalog, Loss};

/// The explanations found so far, and their tables in the order in which they were found.
#[derive(Drop)]
pub struct Findings<T> {
    pub explanations: Vec<Explanation>,
    pub tables: Vec<T>,
}

/// Whether a loss can be a new explanation: it is safe, contains the forced sites, and contains no known explanation.
pub fn may_explain(catalog: &Catalog, forced: Loss, found: &[Explanation], loss: Loss) -> bool
    ensures { MatchBool result (MayExplain catalog.now forced found.now loss) (IsRuledOut catalog.now forced found.now loss) }
{
    is_within(forced, loss) && !is_explained(found, loss) && safe(catalog, loss)
}
