//! Encoding a column of runs. Each task writes the runs that begin in its chunk, directly from the table's column.
ghost use Rattle.std.specs.Prelude.{◌≡◌, ◌<◌, None, IfOk};
ghost use Rattle.cs_schema.specs.declared.kinds.Code.{Code as CodeData};
ghost use Rattle.cs_rebuild.specs.SegmentEncoder.{HasColumn, IsRunsChunk, IsBody, code_in};
ghost use Rattle.cs_rebuild.specs.WorkLaws.{one_value};

use crate::columns::table_column;
use crate::rounds::Tasks;
use crate::run::Run;
use crate::segment_encoder::SegmentEncoder;
use cs_board::Gate;
use cs_piece::write_runs;
use cs_store::Fault;
use std::alloc::AllocError;
use std::marker::Sync;
use std::thread::Threads;

/// A task for each chunk of a column, which encodes the runs that begin in it.
#[derive(Drop)]
struct RunTasks<'a> {
    encoder: &'a SegmentEncoder<'a>,
    j: usize,
    ghost column: { HasColumn encoder.now j },
}

impl Tasks for RunTasks<'_> {
    type Out = Vec<u8>;

    ghost tasks = { λ work. work.encoder.now.chunks };

    ghost fault_at = { λ work k fault. fault ≡ None };

    ghost answers = { λ work k out. IsRunsChunk work.encoder.now work.j k out.items };

    fn count(&self) -> u32 {
        self.encoder.chunks
    }

    fn task(&self, k: u32) -> Result<Vec<u8>, Fault> {
        match self.encoder.encode_runs_of(self.j, k) {
            Ok(runs) => Ok(runs),
            Err(_) => Err(Fault::Memory),
        }
    }

    ghost one_fault = { λ work k f g below a b. one_value None f g a b };
}

impl SegmentEncoder<'_> {
    /// The encoded runs of a column that begin in its `k`-th chunk.
    fn encode_runs_of(&self, j: usize, k: u32) -> Result<Vec<u8>, AllocError>
        requires column { HasColumn self.now j }
        ensures { IfOk result (λ out. IsRunsChunk self.now j k out.items) }
    {
        let column = table_column(self.store.catalog, self.p, j);
        let rows = self.numbers.len();
        let from = (k as usize * self.cut as usize).min(rows);
        let to = (from + self.cut as usize).min(rows);
        write_runs(
            self.alloc,
            self.store.walked.column(column),
            self.numbers,
            from,
            to,
        )
    }

    /// The body of a column of runs, in parts that follow one another.
    pub fn encode_runs<R: Threads + Sync, G: Gate + Sync>(
        &self,
        run: &Run<'_, R, G>,
        j: usize,
    ) -> Result<Vec<Vec<u8>>, AllocError>
        requires column { HasColumn self.now j }
        requires runs { code_in self.now j ≡ CodeData.Runs }
        ensures { IfOk result (IsBody self.now j) }
    {
        // for its clause on the number of columns
        let _width = self.store.catalog.width(self.p);
        let tasks = RunTasks { encoder: self, j };
        match run.part((j as u32).wrapping_mul(self.chunks), &tasks) {
            Ok(body) => Ok(body),
            Err(_) => Err(AllocError),
        }
    }
}
