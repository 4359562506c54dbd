//! Gates that hold workers and count the pieces that have begun.
ghost use Rattle.std.specs.Prelude.{◌≡◌, ◌<◌, ◌≤◌, ◌^◌, false, length};

use crate::squares::{Squares, has_answers, is_refused_at_one};
use cs_board::{Gate, Work, run};
use std::sync::atomic::{AtomicU64, Ordering};
use std::thread::Threads;

// A gate that waits in vain gives up after this many turns of a loop.
const TURNS: u64 = 1_000_000_000;

// Holds each piece below a number until this many pieces have begun.
#[derive(Drop)]
struct Holding {
    below: u32,
    until: u64,
    entered: AtomicU64,
    gave_up: AtomicU64,
}

impl Gate for Holding {
    fn entered(&self, piece: u32) {
        self.entered.fetch_add(1, Ordering::SeqCst);
        if piece >= self.below {
            return;
        }
        for _ in 0..TURNS {
            if self.entered.load(Ordering::SeqCst) >= self.until {
                return;
            }
        }
        self.gave_up.fetch_add(1, Ordering::SeqCst);
    }
}

// Whether this many workers answer the squares, at a gate that holds each piece below a number until all pieces have
// begun.
fn square_while_held(
    rt: &(impl Threads + Sync + AllocGlobal),
    workers: u32,
    below: u32,
    wanted: &[u64],
) -> bool
    requires workers { (1 ≤ workers) × (workers ≤ 64) }
    requires few { length wanted.now < 2 ^ 32 }
{
    let pieces = wanted.len() as u32;
    let gate = Holding {
        below,
        until: u64::from(pieces),
        entered: AtomicU64::new(0),
        gave_up: AtomicU64::new(0),
    };
    let round = run(rt, rt.alloc(), workers, &Squares::of(pieces), &gate);
    has_answers(round, wanted) && gate.gave_up.load(Ordering::SeqCst) == 0
}

#[test]
fn two_workers_at_once(rt: HostRuntime) {
    assert!(rt; square_while_held(&rt, 2, 1, &[0, 1]));
}

#[test]
fn four_workers_at_once(rt: HostRuntime) {
    assert!(rt; square_while_held(&rt, 4, 4, &[0, 1, 4, 9]));
}

#[test]
fn shares_are_not_fixed(rt: HostRuntime) {
    assert!(rt; square_while_held(&rt, 2, 1, &[0, 1, 4, 9]));
}

// Counts the pieces that have begun, and adds up their numbers.
#[derive(Drop)]
struct Counting {
    entered: AtomicU64,
    total: AtomicU64,
}

impl Counting {
    fn new() -> Counting {
        Counting {
            entered: AtomicU64::new(0),
            total: AtomicU64::new(0),
        }
    }
}

impl Gate for Counting {
    fn entered(&self, piece: u32) {
        self.entered.fetch_add(1, Ordering::SeqCst);
        self.total.fetch_add(u64::from(piece), Ordering::SeqCst);
    }
}

#[test]
fn skips_above_the_least_fault(rt: HostRuntime) {
    let gate = Counting::new();
    let round = run(&rt, rt.alloc(), 1, &Squares::refused_at(5, 1, 3), &gate);
    assert!(rt; is_refused_at_one(round));
    assert_eq!(rt; gate.entered.load(Ordering::SeqCst), 2);
    assert_eq!(rt; gate.total.load(Ordering::SeqCst), 1);
}

// Each piece answers how many pieces its gate was told of.
#[derive(Drop)]
struct Told<'a> {
    count: u32,
    gate: &'a Counting,
}

impl Work for Told<'_> {
    ghost use Rattle.std.proofs.Common.{rules, sym, ◌∙◌};
    ghost use Rattle.std.specs.Prelude.{◌≡◌, None, false};

    type Out = u64;

    type Fault = ();

    ghost pieces = { λ work. work.count };

    ghost fault_at = { λ work i fault. fault ≡ None };

    ghost answers = { λ work i out. Unit {0} };

    ghost of_memory = { λ _. false };

    fn count(&self) -> u32 {
        self.count
    }

    fn piece(&self, _i: u32) -> Result<u64, ()> {
        Ok(self.gate.entered.load(Ordering::SeqCst))
    }

    fn is_memory(_fault: &()) -> bool
        ensures { result ≡ false }
    {
        false
    }

    ghost never_memory = { λ work i fault below at. Prim.search rules };

    ghost one_fault = { λ work i f g below at here. at ∙ sym here };
}

#[test]
fn gate_is_told_before_a_piece_is_begun(rt: HostRuntime) {
    let gate = Counting::new();
    let told = Told {
        count: 3,
        gate: &gate,
    };
    let round = run(&rt, rt.alloc(), 1, &told, &gate);
    assert!(rt; has_answers(round, &[1, 2, 3]));
}
