//! What the gate of a command observes: its pieces, and whether two are at work at once.
use crate::expecting::{Trial, expect};
use crate::places::places_of;
use crate::stores::{Stored, three_projections};
use cs_board::Gate;
use std::marker::Sync;
use std::process::Abort;
use std::sync::atomic::{AtomicU64, Ordering};
use std::test::Fail;
use std::thread::Threads;

/// Counts the pieces, and holds the first of the first round until the second of that round has begun.
#[derive(Drop)]
pub struct Watch {
    /// How long a piece is held at most, in turns of a loop.
    pub turns: u64,
    entered: AtomicU64,
    firsts: AtomicU64,
    seconds: AtomicU64,
    gave_up: AtomicU64,
}

impl Watch {
    /// Holds nothing.
    pub fn new() -> Watch {
        Watch {
            turns: 0,
            entered: AtomicU64::new(0),
            firsts: AtomicU64::new(0),
            seconds: AtomicU64::new(0),
            gave_up: AtomicU64::new(0),
        }
    }
}

impl Gate for Watch {
    fn entered(&self, piece: u32) {
        self.entered.fetch_add(1, Ordering::SeqCst);
        if piece == 1 {
            self.seconds.fetch_add(1, Ordering::SeqCst);
        }
        if piece != 0 {
            return;
        }
        if self.firsts.fetch_add(1, Ordering::SeqCst) > 0 {
            return;
        }
        for _ in 0..self.turns {
            if self.seconds.load(Ordering::SeqCst) > 0 {
                return;
            }
        }
        self.gave_up.fetch_add(1, Ordering::SeqCst);
    }
}

/// A line, the number of pieces of its work, and whether two of them are at work at once.
const LINES: [(&str, u64, bool); 6] = [
    ("recover S O 2 3", 13, false),
    ("recover --workers 2 --cut 1 S O 2 3", 20, true),
    ("recover --cut 1 S O 2 3", 20, false),
    ("recover --cut 2 --workers 3 S O 2 3", 14, true),
    ("recover --workers 1 --cut 3 S O 2 3", 14, false),
    ("recover S O 2 3 --cut 65536", 13, false),
];

/// The number of pieces of a line's work, and whether one was held in vain.
fn pieces_of(
    rt: &(impl Threads + Sync + AllocGlobal + Abort),
    stored: &Stored,
    line: &'static str,
    turns: u64,
) -> Result<(u64, bool), Fail> {
    let mut places = places_of(rt.alloc(), stored)?;
    places.watch.turns = turns;
    let recovered: Trial = (line, 0, "ok files=4\n", "", "S > O", 4);
    expect(rt, &mut places, &recovered)?;
    let entered = places.watch.entered.load(Ordering::SeqCst);
    Ok((entered, places.watch.gave_up.load(Ordering::SeqCst) > 0))
}

#[test]
fn workers_and_cut_reach_the_work(rt: HostRuntime) -> Result<(), Fail> {
    let stored = three_projections(rt.alloc())?;
    for (line, pieces, at_once) in LINES.iter() {
        let turns = if *at_once { 1_000_000_000 } else { 1_000 };
        let got = pieces_of(&rt, &stored, line, turns)?;
        assert_eq!(rt; got, (*pieces, !*at_once), "{line}");
    }
    Ok(())
}
