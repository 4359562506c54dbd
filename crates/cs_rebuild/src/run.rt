//! How work is run.
ghost use Rattle.std.specs.Prelude.{◌≤◌};

use std::alloc::Global;

/// How the rounds of a recovery, a check or a build are run. Answers do not depend on it.
#[derive(Drop)]
pub struct Run<'a, R, G> {
    /// The runtime that starts threads.
    pub rt: &'a R,
    pub alloc: Global,
    /// The number of workers that share the pieces of a round: 1 to 64.
    pub workers: u32,
    /// The number of rows of a piece: 1 to 1,048,576.
    pub cut: u32,
    /// Is told of each round as it opens, and of each piece as it begins.
    pub gate: &'a G,
    pub ghost workers_range: { (1 ≤ workers) × (workers ≤ 64) },
    pub ghost cut_range: { (1 ≤ cut) × (cut ≤ 1048576) },
}
