//! Gates that note the order in which the rounds open.
use cs_board::{Gate, Round};
use std::sync::atomic::{AtomicU64, Ordering};

/// The number of the rounds of columns. Each lost segment has one.
const COLUMNS: u64 = 5;

/// Notes the number of the round that opened last, and how many opened out of order.
#[derive(Drop)]
pub struct Opened {
    last: AtomicU64,
    astray: AtomicU64,
}

impl Opened {
    /// No round has opened.
    pub fn none() -> Opened {
        Opened {
            last: AtomicU64::new(0),
            astray: AtomicU64::new(0),
        }
    }

    /// The number of the round that opened last, if all opened in order.
    pub fn last_in_order(&self) -> Option<u64> {
        if self.astray.load(Ordering::SeqCst) > 0 {
            return None;
        }
        Some(self.last.load(Ordering::SeqCst))
    }
}

/// The number of a round, from 1.
fn number(round: Round) -> u64 {
    match round {
        Round::Files => 1,
        Round::Walk => 2,
        Round::Images => 3,
        Round::Joins => 4,
        Round::Columns => COLUMNS,
    }
}

impl Gate for Opened {
    fn entered(&self, _piece: u32) {}

    fn opened(&self, round: Round, _pieces: u32) {
        let last = self.last.load(Ordering::SeqCst);
        let next = number(round);
        if next == last.wrapping_add(1) || (next == COLUMNS && last == COLUMNS) {
            self.last.store(next, Ordering::SeqCst);
        } else {
            self.astray.fetch_add(1, Ordering::SeqCst);
        }
    }
}
