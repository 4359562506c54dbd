//! The answer to each command line, and what it asks of the places.
use crate::expecting::{Trial, USAGE, expect_all};
use crate::stores::{
    Stored, joined, sample_store, three_projections, three_projections_by_rows, with_an_empty_site,
};
use std::marker::Sync;
use std::process::Abort;
use std::test::Fail;
use std::thread::Threads;

const UNSAFE: &str = "fault: unsafe loss: 1,2\n";

const OUTSIDE: &str = "fault: loss names a site outside the catalog\n";

const SAMPLE: &str = "p0.s0.seg 126\np0.s0.del 56\nok files=2\n";

/// Command lines over the sample's store, whose two sites have two files each.
const LINES: [Trial; 17] = [
    ("", 0, SAMPLE, "", "", 0),
    ("check 1 S", 0, "ok rows=4 k=1\n", "", "S", 0),
    ("check 01 a/S", 0, "ok rows=4 k=1\n", "", "a/S", 0),
    ("check -- +1 --cut", 0, "ok rows=4 k=1\n", "", "--cut", 0),
    ("check 2 T", 1, "", UNSAFE, "T", 0),
    ("check 4 S", 1, "", "fault: k above 3\n", "S", 0),
    ("recover S O 1 2", 1, "", UNSAFE, "S", 0),
    ("recover S O 9", 1, "", OUTSIDE, "S", 0),
    ("recover S O 1", 0, "ok files=2\n", "", "S > O", 2),
    ("recover O S 1 1", 0, "ok files=2\n", "", "O > S", 2),
    ("recover a/S b/O +2", 0, "ok files=2\n", "", "a/S > b/O", 2),
    ("recover S O 01", 0, "ok files=2\n", "", "S > O", 2),
    ("recover -- S O 1", 0, "ok files=2\n", "", "S > O", 2),
    ("recover S --cut=1 O 1", 0, "ok files=2\n", "", "S > O", 2),
    ("recover S O 1 --cut 7 1", 0, "ok files=2\n", "", "S > O", 2),
    (
        "recover --workers 64 S O 1",
        0,
        "ok files=2\n",
        "",
        "S > O",
        2,
    ),
    (
        "recover S O 1 --workers=2 --cut=1048576",
        0,
        "ok files=2\n",
        "",
        "S > O",
        2,
    ),
];

/// Words that are not a command.
const OTHER_WORDS: [&str; 25] = [
    "check",
    "check 256 S",
    "check -1 S",
    "check 1 S T",
    "check --workers 1 1 S",
    "check --help",
    "help",
    "--help",
    "--version",
    "--",
    "-- check 1 S",
    "restore S O 1",
    "recover",
    "recover S O",
    "recover S O 0",
    "recover S O 17",
    "recover S O x",
    "recover S O 1 --help",
    "recover --workers 0 S O 1",
    "recover --workers 65 S O 1",
    "recover --cut 0 S O 1",
    "recover --cut 1048577 S O 1",
    "recover --workers 1 --workers 1 S O 1",
    "recover --cut 1 S O 1 --cut 1",
    "recover S O -- 1 --workers 1",
];

#[test]
fn answers_each_line(rt: HostRuntime) -> Result<(), Fail> {
    let stored = sample_store(rt.alloc())?;
    expect_all(&rt, &stored, &LINES)?;
    expect_usage(&rt, &stored, &OTHER_WORDS)
}

fn expect_usage(
    rt: &(impl Threads + Sync + AllocGlobal + Abort),
    stored: &Stored,
    lines: &[&'static str],
) -> Result<(), Fail> {
    for line in lines {
        expect_all(rt, stored, &[(*line, 2, "", USAGE, "", 0)])?;
    }
    Ok(())
}

const OF_JOINED: [Trial; 4] = [
    ("check 1 S", 0, "ok rows=2 k=1\n", "", "S", 0),
    ("check 2 S", 1, "", "fault: unsafe loss: 1,3\n", "S", 0),
    ("recover S O 9", 1, "", OUTSIDE, "S", 0),
    ("recover S O 3", 0, "ok files=2\n", "", "S > O", 2),
];

const OF_THREE: [Trial; 2] = [
    ("check 2 S", 0, "ok rows=4 k=2\n", "", "S", 0),
    ("recover S O 2 3", 0, "ok files=4\n", "", "S > O", 4),
];

const OF_THREE_BY_ROWS: [Trial; 1] = [("recover S O 1 3 6", 0, "ok files=6\n", "", "S > O", 6)];

const OF_AN_EMPTY_SITE: [Trial; 1] = [("recover S O 3", 0, "ok files=0\n", "", "S > O", 0)];

#[test]
fn recovers_each_store(rt: HostRuntime) -> Result<(), Fail> {
    expect_all(&rt, &joined(rt.alloc())?, &OF_JOINED)?;
    expect_all(&rt, &three_projections(rt.alloc())?, &OF_THREE)
}

#[test]
fn recovers_each_edited_store(rt: HostRuntime) -> Result<(), Fail> {
    expect_all(
        &rt,
        &three_projections_by_rows(rt.alloc())?,
        &OF_THREE_BY_ROWS,
    )?;
    expect_all(&rt, &with_an_empty_site(rt.alloc())?, &OF_AN_EMPTY_SITE)
}
