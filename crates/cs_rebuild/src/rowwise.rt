//! The walk by rows.
ghost use Rattle.std.specs.Prelude.{◌≡◌, ◌<◌, ◌≤◌, ◌^◌, length, Ok, IfOk, IfErr};
ghost use Rattle.cs_rows.specs.Survivors.{contents_of};
ghost use Rattle.cs_rows.specs.WalkByRows.{surviving_rows, walked_by_rows};
ghost use Rattle.cs_rebuild.specs.Walking.{HasTableKinds, RowsFaultAt, RowsAnswerAt, IsWalkRefusal};
ghost use Rattle.cs_rebuild.specs.WorkLaws.{one_value};

use crate::cutting::count_pieces;
use crate::rounds::Tasks;
use crate::run::Run;
use cs_board::{Gate, Round};
use cs_rows::by_rows::walk_fresh_rows;
use cs_rows::counts::surviving_row_count;
use cs_rows::range::WalkFault;
use cs_rows::{Survivors, Table, Walked, join_once};
use cs_schema::{Catalog, Loss};
use cs_store::Fault;
use std::alloc::Global;
use std::marker::Sync;
use std::thread::Threads;

/// Walks all surviving rows, in pieces of `cut` rows.
#[derive(Drop)]
struct RowsWork<'a> {
    alloc: Global,
    catalog: &'a Catalog,
    loss: Loss,
    survivors: &'a Survivors<'a>,
    cut: u32,
    pieces: u32,
    ghost same: { survivors.now.catalog ≡ catalog.now },
    ghost cut_range: { cut ≤ 1048576 },
}

impl Tasks for RowsWork<'_> {
    type Out = Walked;

    ghost tasks = { λ work. work.pieces };

    ghost fault_at = { λ work i fault. RowsFaultAt work.catalog.now work.loss (contents_of work.survivors.now) work.cut i fault };

    ghost answers = { λ work i walked. RowsAnswerAt work.catalog.now work.loss (contents_of work.survivors.now) work.cut i walked };

    fn count(&self) -> u32 {
        self.pieces
    }

    fn task(&self, i: u32) -> Result<Walked, Fault> {
        let from = i as usize * self.cut as usize;
        let to = from + self.cut as usize;
        match walk_fresh_rows(
            self.alloc,
            self.catalog,
            self.loss,
            self.survivors,
            from,
            to,
        ) {
            Ok(walked) => Ok(walked),
            Err(WalkFault::Memory) => Err(Fault::Memory),
            Err(WalkFault::Astray { p, s, row }) => Err(Fault::Astray { p, s, row }),
        }
    }

    ghost one_fault = { λ work i f g below a b. one_value _ f g a b };
}

/// The full rows to which the surviving rows lead, each primary key once, or the fault of the first that is led astray.
pub fn walk_rowwise<'a, R: Threads + Sync, G: Gate + Sync>(
    run: &Run<'_, R, G>,
    catalog: &Catalog,
    loss: Loss,
    survivors: &'a Survivors<'a>,
) -> Result<Table<'a>, Fault>
    requires same { survivors.now.catalog ≡ catalog.now }
    requires few { length (surviving_rows catalog.now loss (contents_of survivors.now)) < 2 ^ 32 }
    ensures kinds { IfOk result (HasTableKinds catalog.now) }
    ensures rows { IfOk result (λ rows. walked_by_rows catalog.now loss (contents_of survivors.now) ≡ Ok rows.rows) }
    ensures err { IfErr result (IsWalkRefusal (walked_by_rows catalog.now loss (contents_of survivors.now))) }
{
    let _rules = catalog.projection_count();
    let rows = surviving_row_count(survivors, loss);
    let pieces = count_pieces(rows, run.cut);
    let work = RowsWork {
        alloc: run.alloc,
        catalog,
        loss,
        survivors,
        cut: run.cut,
        pieces,
    };
    match run.round(Round::Walk, &work) {
        Ok(all) => match join_once(run.rt, run.alloc, catalog, all.as_slice()) {
            Ok(walked) => Ok(Table::of_walk(run.alloc, walked)),
            Err(_) => Err(Fault::Memory),
        },
        Err(fault) => Err(fault),
    }
}
