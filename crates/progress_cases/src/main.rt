//! Shows how the progress line moves, by a clock that advances 60 milliseconds each time it is read.
#![tactic(auto)]

use anyhow::Result;
use cs_board::{Gate, Round};
use cs_file_system::{FileStep, Watch};
use pinepolo_progress::{Progress, ProgressLine, Stage};
use std::io;
use std::sync::atomic::{AtomicU64, Ordering};
use std::time::{Clock, Duration};

/// How far the clock advances each time, in milliseconds.
const STEP: u64 = 60;

/// A clock that advances each time it is read.
#[derive(Drop)]
struct Ticks {
    now: AtomicU64,
}

impl Clock for Ticks {
    fn monotonic(&self) -> io::Result<Duration> {
        Ok(Duration::from_millis(self.now.fetch_add(STEP, Ordering::SeqCst)))
    }

    fn since_1970(&self) -> io::Result<Duration> {
        self.monotonic()
    }
}

/// A gate over a stream that is a terminal or not.
fn gate<P: Print>(stream: P, is_terminal: bool) -> ProgressLine<Ticks, P> {
    let clock = Ticks {
        now: AtomicU64::new(0),
    };
    ProgressLine::new(clock, stream, is_terminal, 65_536)
}

/// Reports to a gate: a table that is read, two files that are read, a walk in four pieces, two rounds of columns that are open
/// beside one of images, and files that are kept and written.
fn tell<G: Progress + Watch>(gate: &G) {
    gate.reached(Stage::Table);
    for _ in 0..4 {
        gate.read_rows(1000);
    }
    gate.reached(Stage::Reading);
    gate.expects(5_000_000);
    for site in 1..3u8 {
        gate.begins(FileStep::Read, Some(site));
        gate.moves(2_500_000);
    }
    gate.opened(Round::Walk, 4);
    for piece in 0..4 {
        gate.entered(piece);
    }
    gate.opened(Round::Images, 2);
    for _ in 0..2 {
        gate.opened(Round::Columns, 2);
        gate.entered(0);
    }
    for step in [FileStep::Keep, FileStep::Write] {
        gate.begins(step, Some(3));
        gate.moves(1_500_000);
    }
    gate.begins(FileStep::Write, None);
    gate.reached(Stage::Inspecting);
    gate.erase();
    gate.erase();
}

fn main(rt: HostRuntime) -> Result<()> {
    let shown = gate(rt.stdout(), true);
    tell(&shown);
    println!(rt; "erased")?;
    let told = shown.shown();
    println!(rt; "{told}")?;
    println!(rt; "no terminal")?;
    tell(&gate(rt.stdout(), false));
    println!(rt; "quiet")?;
    let quiet = gate(rt.stdout(), true);
    quiet.silence();
    tell(&quiet);
    Ok(())
}
