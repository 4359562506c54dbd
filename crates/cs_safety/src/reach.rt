//! What can be reached through declared joins between allowed projections.
ghost use Rattle.std.specs.Prelude.{◌≡◌, ℕ, ◌<◌, ◌≤◌, ◌↔◌, IsTrue, MatchOption};
ghost use Rattle.cs_safety.specs.NumberSets.{is_in, IsFirstBelow};
ghost use Rattle.cs_safety.specs.Reach.{entered, within, AreLevels, holds_among, joins_among, Suits, IsFirstSuiting};

use crate::graph::Graph;
use crate::sets;
use crate::sets::Projections;

/// What is reached, and what one more join enters.
fn next(graph: &Graph, allowed: Projections, reached: Projections) -> Projections
    requires { graph.now.count ≤ 8 }
    ensures { (q : ℕ) → is_in result q ≡ entered graph.now allowed (is_in reached) q }
{
    let mut more = reached;
    for p in 0..graph.count {
        if sets::has(reached, p) {
            more = sets::join(more, sets::meet(allowed, graph.joins[p as usize]));
        }
    }
    more
}

/// What is reached from a start through allowed projections within 0, 1, .., 7 joins.
#[derive(Clone, Copy)]
pub struct Levels {
    pub allowed: Projections,
    pub start: u8,
    pub reached: [Projections; 8],
}

/// The levels from a start. With at most 8 projections, none is more than 7 joins away.
pub fn levels_from(graph: &Graph, allowed: Projections, start: u8) -> Levels
    requires few { graph.now.count ≤ 8 }
    requires exists { start < graph.now.count }
    ensures allowed { result.allowed ≡ allowed }
    ensures start { result.start ≡ start }
    ensures levels { AreLevels graph.now result }
{
    let mut reached = [sets::with(0, start); 8];
    for k in 1..8 {
        reached[k] = next(graph, allowed, reached[k - 1]);
    }
    Levels {
        allowed,
        start,
        reached,
    }
}

/// The lowest-numbered projection of a set that has a column.
pub fn first_holder(graph: &Graph, set: Projections, column: u8) -> Option<u8>
    requires few { graph.now.count ≤ 8 }
    requires narrow { column < 32 }
    ensures { IsFirstBelow graph.now.count (holds_among graph.now (is_in set) column) result }
{
    for q in 0..graph.count {
        if sets::has(set, q) && sets::has_column(graph.columns[q as usize], column) {
            return Some(q);
        }
    }
    None
}

/// The lowest-numbered projection of a set that has a join to another.
pub fn first_joined(graph: &Graph, set: Projections, target: u8) -> Option<u8>
    requires few { graph.now.count ≤ 8 }
    requires exists { target < 8 }
    ensures { IsFirstBelow graph.now.count (joins_among graph.now (is_in set) target) result }
{
    for q in 0..graph.count {
        if sets::has(set, q) && sets::has(graph.joins[q as usize], target) {
            return Some(q);
        }
    }
    None
}

/// What is reached by any number of joins.
fn reached_from(graph: &Graph, allowed: Projections, start: u8) -> Projections
    requires few { graph.now.count ≤ 8 }
    requires exists { start < graph.now.count }
    ensures { (q : ℕ) → is_in result q ≡ within graph.now allowed start 7 q }
{
    levels_from(graph, allowed, start).reached[7]
}

/// Whether a projection is allowed and reaches every column through allowed ones.
pub fn is_suitable(graph: &Graph, allowed: Projections, start: u8) -> bool
    requires few { graph.now.count ≤ 8 }
    requires narrow { graph.now.width ≤ 32 }
    requires exists { start < graph.now.count }
    ensures { IsTrue result ↔ Suits graph.now allowed start }
{
    if !sets::has(allowed, start) {
        return false;
    }
    let reached = reached_from(graph, allowed, start);
    for column in 0..graph.width {
        match first_holder(graph, reached, column) {
            Some(_) => {}
            None => return false,
        }
    }
    true
}

/// The lowest-numbered suitable projection.
pub fn first_suitable(graph: &Graph, allowed: Projections) -> Option<u8>
    requires few { graph.now.count ≤ 8 }
    requires narrow { graph.now.width ≤ 32 }
    ensures { MatchOption result ((a : ℕ) → ¬ Suits graph.now allowed a) (λ a. IsFirstSuiting graph.now allowed a) }
{
    for start in 0..graph.count {
        if is_suitable(graph, allowed, start) {
            return Some(start);
        }
    }
    None
}
