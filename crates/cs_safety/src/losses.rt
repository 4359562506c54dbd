//! What a loss of sites leaves, and whether it is enough.
ghost use Rattle.std.specs.Prelude.{◌≡◌, ℕ, ◌<◌, ◌↔◌, IsTrue, length};
ghost use Rattle.cs_schema.specs.Losses.{alive};
ghost use Rattle.cs_safety.specs.Safety.{IsAlive, IsWhole, IsSafe};
ghost use Rattle.cs_safety.specs.NumberSets.{is_in};
ghost use Rattle.cs_safety.specs.Reach.{IsGraphOf};

use crate::graph::Graph;
use crate::sets::Projections;
use crate::{graph, reach, row_sets, sets};
use cs_schema::{Catalog, Loss, Safety};

/// Whether no segment of a projection is on a lost site.
pub fn alive(catalog: &Catalog, loss: Loss, p: u16) -> bool
    requires { p < length catalog.now.projections }
    ensures test { result ≡ alive catalog.now loss p }
    ensures segments { IsTrue result ↔ IsAlive catalog.now loss p }
{
    for s in 0..catalog.segments(p) {
        if catalog.lost(p, s, loss) {
            return false;
        }
    }
    true
}

/// The projections that are alive.
pub(crate) fn alive_set(catalog: &Catalog, loss: Loss) -> Projections
    ensures { (p : ℕ) → p < length catalog.now.projections → is_in result p ≡ alive catalog.now loss p }
{
    let mut set = 0;
    for p in 0..graph::projection_count(catalog) {
        if alive(catalog, loss, u16::from(p)) {
            set = sets::with(set, p);
        }
    }
    set
}

/// Whether some alive projection is suitable.
fn is_whole(catalog: &Catalog, graph: &Graph, loss: Loss) -> bool
    requires { IsGraphOf catalog.now graph.now }
    ensures { IsTrue result ↔ IsWhole catalog.now loss }
{
    match reach::first_suitable(graph, alive_set(catalog, loss)) {
        Some(_) => true,
        None => false,
    }
}

/// Whether a loss is safe by the rule of the catalog.
pub(crate) fn is_safe(catalog: &Catalog, graph: &Graph, loss: Loss) -> bool
    requires { IsGraphOf catalog.now graph.now }
    ensures { IsTrue result ↔ IsSafe catalog.now loss }
{
    match catalog.safety {
        Safety::Whole => is_whole(catalog, graph, loss),
        Safety::Rows => row_sets::is_safe_by_rows(catalog, graph, loss),
    }
}

/// Whether a loss is safe by the rule of the catalog.
pub fn safe(catalog: &Catalog, loss: Loss) -> bool
    ensures { IsTrue result ↔ IsSafe catalog.now loss }
{
    is_safe(catalog, &graph::graph_of(catalog), loss)
}
