//! The plan of a recovery.
ghost use Rattle.std.specs.Prelude.{◌≡◌, ℕ, ◌<◌, ◌≤◌, IsNone, IfSome, None, length, slice_index, slice_index_or};
ghost use Rattle.cs_safety.specs.Safety.{IsWhole};
ghost use Rattle.cs_safety.specs.PlanData.{IsPlan};
ghost use Rattle.cs_safety.specs.Reach.{AreLevels, Suits};
ghost use Rattle.cs_safety.specs.PlanTests.{IsEntrance, IsNearest, IsNearestHolder};

use crate::graph::Graph;
use crate::plans::Plan;
use crate::reach::Levels;
use crate::{graph, losses, reach, sets};
use arrayvec::ArrayVec;
use cs_schema::{Catalog, Loss};

/// The projection from which another is entered, one join nearer to the anchor.
fn entrance(graph: &Graph, levels: &Levels, q: u8) -> Option<u8>
    requires few { graph.now.count ≤ 8 }
    requires exists { q < graph.now.count }
    requires levels { AreLevels graph.now levels.now }
    ensures { IsEntrance graph.now levels.now.allowed levels.now.start q result }
{
    for k in 0..7 {
        if sets::has(levels.reached[k + 1], q) && !sets::has(levels.reached[k], q) {
            return reach::first_joined(graph, levels.reached[k], q);
        }
    }
    None
}

/// The nearest projection with a column; of several, the one with the lowest number.
fn nearest(graph: &Graph, levels: &Levels, column: u8) -> Option<u8>
    requires few { graph.now.count ≤ 8 }
    requires narrow { column < 32 }
    requires levels { AreLevels graph.now levels.now }
    ensures { IsNearest graph.now levels.now.allowed levels.now.start column result }
{
    for k in 0..8 {
        match reach::first_holder(graph, levels.reached[k], column) {
            Some(q) => return Some(q),
            None => {}
        }
    }
    None
}

/// For each projection, the one from which it is entered.
fn entrances(graph: &Graph, levels: &Levels) -> ArrayVec<Option<u8>, 8>
    requires few { graph.now.count ≤ 8 }
    requires levels { AreLevels graph.now levels.now }
    ensures size { length result.items ≡ graph.now.count }
    ensures each { (q : ℕ) → q < graph.now.count → IsEntrance graph.now levels.now.allowed levels.now.start q (slice_index_or result.items q None) }
{
    let mut prev = ArrayVec::new();
    for q in 0..graph.count {
        prev.push(entrance(graph, levels, q));
    }
    prev
}

/// For each column, the nearest projection that has it.
fn sources(graph: &Graph, levels: &Levels) -> Option<ArrayVec<u8, 32>>
    requires few { graph.now.count ≤ 8 }
    requires narrow { graph.now.width ≤ 32 }
    requires levels { AreLevels graph.now levels.now }
    ensures none { IsNone result → ¬ Suits graph.now levels.now.allowed levels.now.start }
    ensures size { IfSome result (λ found. length found.items ≡ graph.now.width) }
    ensures each { IfSome result (λ found. (c : ℕ) → c < graph.now.width
        → IsNearestHolder graph.now levels.now.allowed levels.now.start c (slice_index found.items c)) }
{
    let mut found = ArrayVec::new();
    for column in 0..graph.width {
        found.push(nearest(graph, levels, column)?);
    }
    Some(found)
}

/// The plan for a loss.
pub fn plan(catalog: &Catalog, loss: Loss) -> Option<Plan>
    ensures none { IsNone result → ¬ IsWhole catalog.now loss }
    ensures some { IfSome result (λ plan. IsPlan catalog.now loss plan) }
{
    let graph = graph::graph_of(catalog);
    let allowed = losses::alive_set(catalog, loss);
    let anchor = reach::first_suitable(&graph, allowed)?;
    let levels = reach::levels_from(&graph, allowed, anchor);
    let prev = entrances(&graph, &levels);
    let source = sources(&graph, &levels)?;
    Some(Plan {
        anchor,
        prev,
        source,
    })
}
