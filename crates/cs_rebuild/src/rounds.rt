//! Rounds of tasks whose faults are those of a store.
ghost use Rattle.std.specs.Prelude.{◌≡◌, ◌<◌, ℕ, Option, Some, None, IfOk, IfErr};
ghost use Rattle.cs_board.specs.Pieces.{IsAnswered};
ghost use Rattle.cs_store.specs.Fault.{MemoryOr};
ghost use Rattle.cs_store.specs.declared.fault.Fault.{Fault as FaultData};
ghost use Rattle.cs_rebuild.specs.Rounds.{is_memory, IsNoMemory, IsFirstFault};

use crate::run::Run;
use cs_board::{Gate, Round, RunFault, Work, run};
use cs_store::Fault;
use std::marker::{Send, Sync};
use std::thread::Threads;

/// Tasks, numbered from 0, which may be done in any order and by several threads at once.
pub trait Tasks {
    /// The answer of a sound task.
    type Out: Send + Drop;

    /// The number of tasks.
    ghost tasks: { Self → ℕ };

    /// The claim about a task: with `None` it is sound, with `Some` it has this fault.
    ghost fault_at: { Self → ℕ → Option FaultData → Type 0 };

    /// The claim about the answer of a task.
    ghost answers: { Self → ℕ → Self.Out → Type 0 };

    /// The number of tasks.
    fn count(&self) -> u32
        ensures { result ≡ tasks self.now };

    /// Does one task.
    fn task(&self, i: u32) -> Result<Self::Out, Fault>
        requires { i < tasks self.now }
        ensures ok { IfOk result (λ out. fault_at self.now i None × answers self.now i out) }
        ensures err { IfErr result (λ fault. MemoryOr fault (fault_at self.now i (Some fault))) };

    /// A task is sound or has a fault, but not both, and it has only one fault.
    ghost one_fault: { (tasks_of : Self) (i : ℕ) (f g : Option FaultData) → i < tasks tasks_of
        → fault_at tasks_of i f → fault_at tasks_of i g → f ≡ g };
}

/// Tasks as work of the claim board.
#[derive(Drop)]
struct TasksWork<'a, T> {
    tasks: &'a T,
}

impl<'a, T: Tasks> Work for TasksWork<'a, T> {
    type Out = T::Out;

    type Fault = Fault;

    ghost pieces = { λ work. T.tasks work.tasks.now };

    ghost fault_at = { λ work i fault. T.fault_at work.tasks.now i fault × IsNoMemory fault };

    ghost answers = { λ work i out. T.answers work.tasks.now i out };

    ghost of_memory = { is_memory };

    fn count(&self) -> u32 {
        self.tasks.count()
    }

    fn piece(&self, i: u32) -> Result<T::Out, Fault> {
        self.tasks.task(i)
    }

    fn is_memory(fault: &Fault) -> bool
        ensures { result ≡ is_memory fault.now }
    {
        match fault {
            Fault::Memory => true,
            _ => false,
        }
    }

    ghost never_memory = { λ work i fault below at. at.1 };

    ghost one_fault = { λ work i f g below a b. T.one_fault work.tasks.now i f g below a.0 b.0 };
}

/// A gate that is told of part of a round: `before` pieces come before it.
#[derive(Drop)]
struct PartGate<'a, G> {
    gate: &'a G,
    before: u32,
}

impl<G: Gate> Gate for PartGate<'_, G> {
    fn entered(&self, piece: u32) {
        self.gate.entered(self.before.wrapping_add(piece));
    }
}

impl<'a, R: Threads + Sync, G: Gate + Sync> Run<'a, R, G> {
    /// Opens a round and does its tasks. Returns their answers in order, or the fault of the first task that has one.
    /// `Memory` may take the place of either.
    pub fn round<T: Tasks + Sync>(&self, round: Round, tasks: &T) -> Result<Vec<T::Out>, Fault>
        ensures ok { IfOk result (λ outs. IsAnswered (T.fault_at tasks.now) (T.answers tasks.now) (T.tasks tasks.now) outs.items) }
        ensures err { IfErr result (λ fault. MemoryOr fault (IsFirstFault (T.fault_at tasks.now) (T.tasks tasks.now) fault)) }
    {
        self.gate.opened(round, tasks.count());
        self.part(0, tasks)
    }

    /// Does tasks that are part of an open round and come after `before` others. Returns their answers in order, or the
    /// fault of the first task that has one. `Memory` may take the place of either.
    pub(crate) fn part<T: Tasks + Sync>(&self, before: u32, tasks: &T) -> Result<Vec<T::Out>, Fault>
        ensures ok { IfOk result (λ outs. IsAnswered (T.fault_at tasks.now) (T.answers tasks.now) (T.tasks tasks.now) outs.items) }
        ensures err { IfErr result (λ fault. MemoryOr fault (IsFirstFault (T.fault_at tasks.now) (T.tasks tasks.now) fault)) }
    {
        let work = TasksWork { tasks };
        let gate = PartGate {
            gate: self.gate,
            before,
        };
        match run(self.rt, self.alloc, self.workers, &work, &gate) {
            Ok(outs) => Ok(outs),
            Err(RunFault::Memory) => Err(Fault::Memory),
            Err(RunFault::At(_, fault)) => Err(fault),
        }
    }
}
