//! The progress line.
use crate::progress::Progress;
use crate::shown::Shown;
use crate::stage::Stage;
use crate::tried::{loss_of, word_of};
use cs_board::{Gate, Round};
use cs_file_system::{FileStep, Watch};
use cs_schema::Loss;
use std::fmt;
use std::io::Print;
use std::sync::atomic::{AtomicU64, Ordering};
use std::time::Clock;

/// How long a verb works before it shows a line, in milliseconds.
const PATIENCE: u64 = 300;

/// The minimum time between two lines, in milliseconds.
const PAUSE: u64 = 100;

/// Terminal control codes: carriage return, erase to the end of the line.
const ERASED: &str = "\r\x1b[K";

/// A gate that counts, and shows on a terminal how far work has come.
///
/// Whoever begins a piece changes its counters by single atomic steps. A line that cannot be written is skipped.
#[derive(Drop)]
pub struct ProgressLine<C, E> {
    clock: C,
    screen: E,
    /// The number of rows of a piece of a walk.
    piece_rows: u64,
    /// 1 if lines are shown.
    shows: AtomicU64,
    /// The number of the stage.
    stage: AtomicU64,
    /// The loss that is tried, as a word, or 0.
    tried: AtomicU64,
    /// The number of rounds that were opened.
    rounds: AtomicU64,
    /// The number of pieces of the round, with those of rounds that were open when it began.
    pieces: AtomicU64,
    /// The number of pieces that have begun.
    begun: AtomicU64,
    /// The number of rows of a table that were read.
    read: AtomicU64,
    /// The number of bytes of files that are to be read, if it is known.
    expected: AtomicU64,
    /// The number of bytes of files that were read or written.
    moved: AtomicU64,
    /// The site of the file that was begun last, or 0.
    site: AtomicU64,
    /// The time at which the next line is due, in milliseconds of the clock.
    due: AtomicU64,
    /// 1 while somebody writes.
    writing: AtomicU64,
    /// 1 if a line is on the screen.
    stands: AtomicU64,
}

/// Displays a line in place of the one on the screen.
#[derive(Clone, Copy)]
struct Line(Shown);

impl fmt::Display for Line {
    fn fmt<W: fmt::Write>(&self, f: &mut fmt::Formatter<W>) -> fmt::Result {
        let shown = self.0;
        write!(f, "{ERASED}{shown}")
    }
}

/// The time of a clock, in milliseconds.
fn milliseconds<C: Clock>(clock: &C) -> Option<u64> {
    let time = clock.monotonic().ok()?;
    u64::try_from(time.as_millis()).ok()
}

impl<C: Clock, E> ProgressLine<C, E> {
    /// A gate that has observed nothing. It shows lines only if its screen is a terminal. `piece_rows` is the number of
    /// rows of a piece of a walk.
    pub fn new(clock: C, screen: E, is_terminal: bool, piece_rows: u64) -> Self {
        let due = match milliseconds(&clock) {
            Some(now) => now.saturating_add(PATIENCE),
            None => u64::MAX,
        };
        Self {
            clock,
            screen,
            piece_rows,
            shows: AtomicU64::new(u64::from(is_terminal)),
            stage: AtomicU64::new(Stage::Reading.number()),
            tried: AtomicU64::new(0),
            rounds: AtomicU64::new(0),
            pieces: AtomicU64::new(0),
            begun: AtomicU64::new(0),
            read: AtomicU64::new(0),
            expected: AtomicU64::new(0),
            moved: AtomicU64::new(0),
            site: AtomicU64::new(0),
            due: AtomicU64::new(due),
            writing: AtomicU64::new(0),
            stands: AtomicU64::new(0),
        }
    }
}

impl<C, E> ProgressLine<C, E> {
    /// Resets the counters of pieces.
    fn forget(&self) {
        self.pieces.store(0, Ordering::SeqCst);
        self.begun.store(0, Ordering::SeqCst);
    }

    /// What it has observed so far.
    pub fn shown(&self) -> Shown {
        Shown {
            stage: Stage::of_number(self.stage.load(Ordering::SeqCst)),
            tried: loss_of(self.tried.load(Ordering::SeqCst)),
            rounds: self.rounds.load(Ordering::SeqCst),
            pieces: self.pieces.load(Ordering::SeqCst),
            begun: self.begun.load(Ordering::SeqCst),
            read: self.read.load(Ordering::SeqCst),
            expected: self.expected.load(Ordering::SeqCst),
            moved: self.moved.load(Ordering::SeqCst),
            site: self.site.load(Ordering::SeqCst),
            piece_rows: self.piece_rows,
        }
    }
}

impl<C: Clock, E: Print> ProgressLine<C, E> {
    /// Whether a line is due; if so, sets when the next one is.
    fn next_due(&self) -> Option<u64> {
        if self.shows.load(Ordering::SeqCst) == 0 {
            return None;
        }
        let now = milliseconds(&self.clock)?;
        if now < self.due.load(Ordering::SeqCst) {
            return None;
        }
        Some(now.saturating_add(PAUSE))
    }

    /// Writes the line if one is due and nobody else is writing.
    fn show(&self) {
        let Some(next) = self.next_due() else {
            return;
        };
        let writing = self
            .writing
            .compare_exchange(0, 1, Ordering::SeqCst, Ordering::SeqCst);
        if writing.is_err() {
            return;
        }
        self.due.store(next, Ordering::SeqCst);
        self.stands.store(1, Ordering::SeqCst);
        let _written = self.screen.print(Line(self.shown())).is_ok();
        self.writing.store(0, Ordering::SeqCst);
    }
}

impl<C: Clock, E: Print> Gate for ProgressLine<C, E> {
    fn entered(&self, _piece: u32) {
        self.begun.fetch_add(1, Ordering::SeqCst);
        self.show();
    }

    fn opened(&self, round: Round, pieces: u32) {
        self.stage
            .store(Stage::Round(round).number(), Ordering::SeqCst);
        self.rounds.fetch_add(1, Ordering::SeqCst);
        if self.begun.load(Ordering::SeqCst) >= self.pieces.load(Ordering::SeqCst) {
            self.forget();
        }
        self.pieces.fetch_add(u64::from(pieces), Ordering::SeqCst);
        self.show();
    }
}

/// The stage of a step with a file.
fn stage_of(step: FileStep) -> Stage {
    match step {
        FileStep::Read => Stage::Reading,
        FileStep::Keep => Stage::Keeping,
        FileStep::Write => Stage::Writing,
    }
}

impl<C: Clock, E: Print> Watch for ProgressLine<C, E> {
    fn expects(&self, bytes: u64) {
        self.expected.fetch_add(bytes, Ordering::SeqCst);
    }

    fn begins(&self, step: FileStep, site: Option<u8>) {
        let stage = stage_of(step).number();
        if self.stage.swap(stage, Ordering::SeqCst) != stage && step != FileStep::Read {
            self.moved.store(0, Ordering::SeqCst);
            self.expected.store(0, Ordering::SeqCst);
        }
        self.site
            .store(u64::from(site.unwrap_or(0)), Ordering::SeqCst);
        self.show();
    }

    fn moves(&self, bytes: u64) {
        self.moved.fetch_add(bytes, Ordering::SeqCst);
        self.show();
    }
}

impl<C: Clock, E: Print> Progress for ProgressLine<C, E> {
    fn reached(&self, stage: Stage) {
        self.forget();
        self.stage.store(stage.number(), Ordering::SeqCst);
        self.show();
    }

    fn read_rows(&self, more: u64) {
        self.read.fetch_add(more, Ordering::SeqCst);
        self.show();
    }

    fn tried(&self, loss: Loss) {
        self.forget();
        self.tried.store(word_of(loss), Ordering::SeqCst);
    }

    fn silence(&self) {
        self.shows.store(0, Ordering::SeqCst);
    }

    fn erase(&self) {
        if self.stands.swap(0, Ordering::SeqCst) == 1 {
            let _written = self.screen.print(ERASED).is_ok();
        }
    }
}
