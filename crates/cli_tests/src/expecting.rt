//! The answer to each command line, and what it asks of the places.
use crate::places::{MemoryPlaces, places_of};
use crate::stores::Stored;
use cs_commands::{Places, run};
use std::alloc::Global;
use std::marker::Sync;
use std::process::Abort;
use std::test::Fail;
use std::thread::Threads;
use test_support::file_sets::are_among;

pub const USAGE: &str =
    "usage: cs_cli [check K STORE | recover [--workers N] [--cut R] STORE OUT SITE...]\n";

/// A line, its status, the texts of standard output and standard error, the paths that were asked for, and the number
/// of files written.
pub type Trial = (
    &'static str,
    u8,
    &'static str,
    &'static str,
    &'static str,
    usize,
);

/// A line's status, and the texts of standard output and standard error.
#[derive(Drop)]
pub struct Answer {
    status: u8,
    out: Vec<u8>,
    err: Vec<u8>,
}

pub fn words(alloc: Global, line: &str) -> Result<Vec<String>, Fail> {
    let mut words = Vec::new(alloc);
    for word in line.split_whitespace() {
        words.push(String::from_str(alloc, word)?)?;
    }
    Ok(words)
}

/// Runs a line over places.
pub fn answer_of<R: Threads + Sync + AllocGlobal, P: Places>(
    rt: &R,
    line: &str,
    places: &mut P,
) -> Result<Answer, Fail> {
    let alloc = rt.alloc();
    let words = words(alloc, line)?;
    let mut out = Vec::new(alloc);
    let mut err = Vec::new(alloc);
    let status = run(rt, alloc, words.as_slice(), places, &mut out, &mut err);
    Ok(Answer { status, out, err })
}

/// Expects a line's status and texts.
pub fn expect_answer(
    rt: &impl Abort,
    line: &str,
    answer: &Answer,
    status: u8,
    out: &str,
    err: &str,
) {
    let texts = (answer.out.as_slice(), answer.err.as_slice());
    let wanted = (out.as_bytes(), err.as_bytes());
    assert_eq!(rt; (answer.status, texts), (status, wanted), "{line}");
}

/// Runs a line over these places, and expects all its results.
pub fn expect(
    rt: &(impl Threads + Sync + AllocGlobal + Abort),
    places: &mut MemoryPlaces,
    trial: &Trial,
) -> Result<(), Fail> {
    let (line, status, out, err, _, _) = *trial;
    let answer = answer_of(rt, line, places)?;
    expect_answer(rt, line, &answer, status, out, err);
    expect_taken(rt, places, trial)
}

/// Expects the paths, this many files in the output, each with its bytes in the store, and the mark.
fn expect_taken(rt: &impl Abort, places: &MemoryPlaces, trial: &Trial) -> Result<(), Fail> {
    let (line, status, _, _, asked, files) = *trial;
    let taken = places.taken.try_borrow()?;
    let mark = if status == 0 && asked.contains(">") {
        Some(files as u64)
    } else {
        None
    };
    let whole = are_among(&taken.files, &places.whole);
    let got = (places.asked.as_str(), taken.files.len(), taken.mark, whole);
    assert_eq!(rt; got, (asked, files, mark, true), "{line}");
    Ok(())
}

/// Runs lines over places with this store, with nothing failing.
pub fn expect_all(
    rt: &(impl Threads + Sync + AllocGlobal + Abort),
    stored: &Stored,
    trials: &[Trial],
) -> Result<(), Fail> {
    for trial in trials {
        expect_one(rt, stored, trial)?;
    }
    Ok(())
}

fn expect_one(
    rt: &(impl Threads + Sync + AllocGlobal + Abort),
    stored: &Stored,
    trial: &Trial,
) -> Result<(), Fail> {
    let mut places = places_of(rt.alloc(), stored)?;
    expect(rt, &mut places, trial)
}
