//! A gate is called before each piece begins.
ghost use Rattle.std.specs.Prelude.{◌≡◌, ◌≤◌, true, ⊤};

use cs_board::{Gate, Work, run};
use std::alloc::Global;
use std::marker::Sync;
use std::sync::atomic::{AtomicU64, Ordering};
use std::test::Fail;
use std::thread::Threads;

/// The number of pieces.
const PIECES: u32 = 7;

/// What is known of the pieces, a bit for each: those that the gate was told of, and those that began before it was.
#[derive(Drop)]
struct Notes {
    told: AtomicU64,
    begun: AtomicU64,
    late: AtomicU64,
}

/// The bit of a piece.
fn bit(piece: u32) -> u64 {
    1 << (piece % 64)
}

impl Gate for Notes {
    fn entered(&self, piece: u32) {
        if self.begun.load(Ordering::SeqCst) & bit(piece) != 0 {
            self.late.fetch_or(bit(piece), Ordering::SeqCst);
        }
        self.told.fetch_or(bit(piece), Ordering::SeqCst);
    }
}

/// Pieces that note when they begin.
#[derive(Drop)]
struct Noting<'a> {
    notes: &'a Notes,
}

impl Work for Noting<'_> {
    ghost use Rattle.std.specs.Prelude.{Option, None, true, false, ⊤};
    ghost use Rattle.std.proofs.Common.{rules, sym, ◌∙◌};

    type Out = ();

    type Fault = ();

    ghost pieces = { λ _. 7 };

    ghost fault_at = { λ work i fault. fault ≡ None };

    ghost answers = { λ work i out. ⊤ };

    ghost of_memory = { λ _. true };

    fn count(&self) -> u32 {
        PIECES
    }

    fn piece(&self, i: u32) -> Result<(), ()> {
        if self.notes.told.load(Ordering::SeqCst) & bit(i) == 0 {
            self.notes.late.fetch_or(bit(i), Ordering::SeqCst);
        }
        self.notes.begun.fetch_or(bit(i), Ordering::SeqCst);
        Ok(())
    }

    fn is_memory(_fault: &()) -> bool
        ensures { result ≡ true }
    {
        true
    }

    ghost never_memory = { λ work i fault below at. Prim.search rules };

    ghost one_fault = { λ work i f g below at here. at ∙ sym here };
}

/// The pieces that began, those that the gate was told of, and those that it was told of too late.
fn notes_of<R: Threads + Sync>(rt: &R, alloc: Global, workers: u32) -> Result<[u64; 3], Fail>
    requires { (1 ≤ workers) × (workers ≤ 64) }
{
    let notes = Notes {
        told: AtomicU64::new(0),
        begun: AtomicU64::new(0),
        late: AtomicU64::new(0),
    };
    match run(rt, alloc, workers, &Noting { notes: &notes }, &notes) {
        Ok(_) => Ok([
            notes.begun.load(Ordering::SeqCst),
            notes.told.load(Ordering::SeqCst),
            notes.late.load(Ordering::SeqCst),
        ]),
        Err(_) => Err(Fail::from("the run did not end")),
    }
}

#[test]
fn gates_are_told_before_a_piece_is_begun(rt: HostRuntime) -> Result<(), Fail> {
    for workers in [1, 2, 4] {
        let notes = notes_of(&rt, rt.alloc(), workers)?;
        assert_eq!(rt; notes, [127, 127, 0], "{workers} workers");
    }
    Ok(())
}
