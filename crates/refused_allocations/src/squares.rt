//! Squares of numbers, as work for a run of workers.
ghost use Rattle.std.specs.Prelude.{◌≤◌};

use crate::attempt::{Answer, Report, allocate};
use cs_board::{OpenGate, RunFault, Work, run};
use std::thread::Threads;

/// How many numbers there are.
const COUNT: u32 = 5;

/// Why a number has no square.
#[derive(Debug, Drop, PartialEq, Eq)]
enum SquareFault {
    Memory,
    Refused(u32),
}

/// The square of each number below the count, but for two that are refused.
#[derive(Drop)]
struct Squares {
    first: u32,
    second: u32,
}

impl Work for Squares {
    ghost use Rattle.std.proofs.Common.{rules, sym, ◌∙◌};
    ghost use Rattle.std.specs.Prelude.{◌≡◌, ◌*◌, ◌==◌, ◌||◌, Option, Some, None, true, false, if◌then◌else◌};
    ghost use Rattle.refused_allocations.specs.declared.squares.SquareFault.TheVariants.{Memory, Refused};

    type Out = u64;

    type Fault = SquareFault;

    ghost pieces = { λ _. 5 };

    ghost fault_at = { λ work i fault. fault ≡ (if i == work.first || i == work.second then Some (Refused i) else None) };

    ghost answers = { λ work i out. out ≡ i * i };

    ghost of_memory = { elim [ Memory ↦ true | Refused i ↦ false ] };

    fn count(&self) -> u32 {
        COUNT
    }

    fn piece(&self, i: u32) -> Result<u64, SquareFault> {
        if i == self.first || i == self.second {
            return Err(SquareFault::Refused(i));
        }
        Ok(u64::from(i) * u64::from(i))
    }

    fn is_memory(fault: &SquareFault) -> bool {
        match fault {
            SquareFault::Memory => true,
            SquareFault::Refused(_) => false,
        }
    }

    ghost never_memory = { λ work i fault below at. Prim.search rules };

    ghost one_fault = { λ work i f g below at here. at ∙ sym here };
}

/// Runs over all numbers, of which none is refused.
pub fn all(rt: &(impl AllocGlobal + Threads + Sync), workers: u32, before: u64) -> Report
    requires { (1 ≤ workers) × (workers ≤ 64) }
{
    let alloc = rt.alloc();
    let squares = Squares {
        first: COUNT,
        second: COUNT,
    };
    let granted = allocate(alloc, before);
    if granted < before {
        return Report::Before(granted);
    }
    let answer = match run(rt, alloc, workers, &squares, &OpenGate) {
        Ok(found) => Answer::of(found.as_slice() == [0u64, 1, 4, 9, 16].as_slice()),
        Err(RunFault::Memory) => Answer::Memory,
        Err(_) => Answer::Wrong,
    };
    Report::made(alloc, answer).unless_changed(squares.first == COUNT && squares.second == COUNT)
}

/// Runs over all numbers, of which 1 and 3 are refused.
pub fn refused(rt: &(impl AllocGlobal + Threads + Sync), workers: u32, before: u64) -> Report
    requires { (1 ≤ workers) × (workers ≤ 64) }
{
    let alloc = rt.alloc();
    let squares = Squares {
        first: 3,
        second: 1,
    };
    let granted = allocate(alloc, before);
    if granted < before {
        return Report::Before(granted);
    }
    let answer = match run(rt, alloc, workers, &squares, &OpenGate) {
        Err(RunFault::At(1, SquareFault::Refused(1))) => Answer::Complete,
        Err(RunFault::Memory) => Answer::Memory,
        _ => Answer::Wrong,
    };
    Report::made(alloc, answer).unless_changed(squares.first == 3 && squares.second == 1)
}
