//! The walk of a plan, by whole projections: the anchor's rows are followed in pieces, then each column is gathered
//! once.
ghost use Rattle.std.specs.Prelude.{◌≡◌, ◌<◌, ◌≤◌, ◌^◌, length, Ok, IfOk, IfErr};
ghost use Rattle.cs_rows.specs.Survivors.{contents_of};
ghost use Rattle.cs_rebuild.specs.Walking.{HasTableKinds, WalkFaultAt, IsFollowedAt, IsWalkRefusal};
ghost use Rattle.cs_rebuild.specs.WorkLaws.{one_value};
ghost use Rattle.cs_rows.specs.PlanWalks.{anchor_rows, walk_result};

use crate::cutting::count_pieces;
use crate::gathering::gather_table;
use crate::rounds::Tasks;
use crate::run::Run;
use cs_board::{Gate, Round};
use cs_rows::range::WalkFault;
use cs_rows::{FollowedRows, PlanWalk, Table};
use cs_store::Fault;
use std::alloc::Global;
use std::marker::Sync;
use std::thread::Threads;

/// Follows the anchor's rows along a plan, in pieces of `cut` rows.
#[derive(Drop)]
struct FollowWork<'a> {
    alloc: Global,
    walk: &'a PlanWalk<'a, 'a>,
    cut: u32,
    pieces: u32,
    ghost cut_range: { cut ≤ 1048576 },
}

impl Tasks for FollowWork<'_> {
    type Out = FollowedRows;

    ghost tasks = { λ work. work.pieces };

    ghost fault_at = { λ work i fault. WalkFaultAt work.walk.now.survivors.now.catalog
        (contents_of work.walk.now.survivors.now) work.walk.now.plan.now work.cut i fault };

    ghost answers = { λ work i followed. IsFollowedAt work.walk.now work.cut i followed };

    fn count(&self) -> u32 {
        self.pieces
    }

    fn task(&self, i: u32) -> Result<FollowedRows, Fault> {
        let from = i as usize * self.cut as usize;
        let to = from + self.cut as usize;
        match self.walk.follow(self.alloc, from, to) {
            Ok(followed) => Ok(followed),
            Err(WalkFault::Memory) => Err(Fault::Memory),
            Err(WalkFault::Astray { p, s, row }) => Err(Fault::Astray { p, s, row }),
        }
    }

    ghost one_fault = { λ work i f g below a b. one_value _ f g a b };
}

/// The rows to which the rows of a plan's anchor lead, or the fault of the first that is led astray.
pub fn walk_planned<'a, R: Threads + Sync, G: Gate + Sync>(
    run: &Run<'_, R, G>,
    walk: &PlanWalk<'_, 'a>,
) -> Result<Table<'a>, Fault>
    requires few { length (anchor_rows walk.now) < 2 ^ 32 }
    ensures kinds { IfOk result (HasTableKinds walk.now.survivors.now.catalog) }
    ensures rows { IfOk result (λ rows. walk_result walk.now ≡ Ok rows.rows) }
    ensures err { IfErr result (IsWalkRefusal (walk_result walk.now)) }
{
    let work = FollowWork {
        alloc: run.alloc,
        walk: &*walk,
        cut: run.cut,
        pieces: count_pieces(walk.anchor_rows(), run.cut),
    };
    let parts = match run.round(Round::Walk, &work) {
        Ok(parts) => parts,
        Err(fault) => return Err(fault),
    };
    match gather_table(run.rt, run.alloc, walk, parts.as_slice()) {
        Ok(table) => Ok(table),
        Err(_) => Err(Fault::Memory),
    }
}
