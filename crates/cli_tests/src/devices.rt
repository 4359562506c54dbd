//! Stores whose files cannot be read or written, one after the other, and streams that are full.
use crate::expecting::{Trial, expect, words};
use crate::places::places_of;
use crate::stores::{Stored, joined, sample_store, three_projections};
use crate::streams::Full;
use cs_commands::run;
use cs_schema::FileName;
use cs_store::StoreFault;
use cs_store::memory::Failure;
use std::marker::Sync;
use std::process::Abort;
use std::test::Fail;
use std::thread::Threads;
use test_support::file_sets::without;

/// The files that survive, and the text if reading one fails.
const READS: [(FileName, &str); 6] = [
    (FileName::Seg { p: 0, s: 0 }, "fault: read p0.s0.seg\n"),
    (FileName::Del { p: 0, s: 0 }, "fault: read p0.s0.del\n"),
    (
        FileName::Jix { p: 0, s: 0, q: 1 },
        "fault: read p0.s0.q1.jix\n",
    ),
    (FileName::Seg { p: 1, s: 0 }, "fault: read p1.s0.seg\n"),
    (FileName::Del { p: 1, s: 0 }, "fault: read p1.s0.del\n"),
    (
        FileName::Jix { p: 1, s: 0, q: 0 },
        "fault: read p1.s0.q0.jix\n",
    ),
];

const WRITES: [&str; 5] = [
    "fault: write p0.s1.seg\n",
    "fault: write p0.s1.del\n",
    "fault: write p1.s0.seg\n",
    "fault: write p1.s0.del\n",
    "fault: write DONE\n",
];

const JOINED_WRITES: [&str; 3] = [
    "fault: write p2.s0.seg\n",
    "fault: write p2.s0.del\n",
    "fault: write DONE\n",
];

const NO_MEMORY: &str = "fault: want of memory\n";

/// Runs a line while the read of a file fails.
fn expect_unread(
    rt: &(impl Threads + Sync + AllocGlobal + Abort),
    stored: &Stored,
    failure: (FileName, StoreFault),
    trial: &Trial,
) -> Result<(), Fail> {
    let mut places = places_of(rt.alloc(), stored)?;
    places.read_failure = Some(failure);
    expect(rt, &mut places, trial)
}

#[test]
fn names_each_read_that_fails(rt: HostRuntime) -> Result<(), Fail> {
    let line = "recover --workers 2 --cut 1 S O 3";
    let stored = joined(rt.alloc())?;
    for (name, text) in READS.iter() {
        let told = (line, 4, "", *text, "S", 0);
        expect_unread(&rt, &stored, (*name, StoreFault::Device), &told)?;
        let told = (line, 3, "", NO_MEMORY, "S", 0);
        expect_unread(&rt, &stored, (*name, StoreFault::Memory), &told)?;
    }
    Ok(())
}

/// Runs a line while a call that writes fails.
fn expect_unwritten(
    rt: &(impl Threads + Sync + AllocGlobal + Abort),
    stored: &Stored,
    failure: Failure,
    trial: &Trial,
) -> Result<(), Fail> {
    let mut places = places_of(rt.alloc(), stored)?;
    places.write_failure = Some(failure);
    expect(rt, &mut places, trial)
}

/// Runs a line while each call that writes fails in turn, for the device and for memory. The texts are those of the
/// device.
fn expect_unwritten_each(
    rt: &(impl Threads + Sync + AllocGlobal + Abort),
    stored: &Stored,
    line: &'static str,
    texts: &[&'static str],
) -> Result<(), Fail> {
    for (after, text) in (0u64..).zip(texts.iter()) {
        let fault = StoreFault::Device;
        let told = (line, 4, "", *text, "S > O", after as usize);
        expect_unwritten(rt, stored, Failure { after, fault }, &told)?;
        let fault = StoreFault::Memory;
        let told = (line, 3, "", NO_MEMORY, "S > O", after as usize);
        expect_unwritten(rt, stored, Failure { after, fault }, &told)?;
    }
    Ok(())
}

#[test]
fn names_each_write_that_fails(rt: HostRuntime) -> Result<(), Fail> {
    let line = "recover S O 2 3";
    expect_unwritten_each(&rt, &three_projections(rt.alloc())?, line, &WRITES)?;
    let line = "recover S O 3";
    expect_unwritten_each(&rt, &joined(rt.alloc())?, line, &JOINED_WRITES)
}

#[test]
fn names_a_file_that_is_not_there(rt: HostRuntime) -> Result<(), Fail> {
    let mut places = places_of(rt.alloc(), &joined(rt.alloc())?)?;
    places.files = without(rt.alloc(), &places.files, FileName::Del { p: 0, s: 0 })?;
    let missing = "fault: missing p0.s0.del\n";
    expect(&rt, &mut places, &("check 1 S", 1, "", missing, "S", 0))
}

/// The bytes of a catalog, if there are any, and the answer to a recovery.
const CATALOGS: [(Option<&[u8]>, u8, &str); 3] = [
    (None, 4, "fault: read catalog.toml\n"),
    (Some(b"="), 1, "fault: catalog: not TOML\n"),
    (Some(b"version = 3"), 1, "fault: catalog: rule 1\n"),
];

fn expect_catalog(
    rt: &(impl Threads + Sync + AllocGlobal + Abort),
    stored: &Stored,
    catalog: Option<&[u8]>,
    trial: &Trial,
) -> Result<(), Fail> {
    let mut places = places_of(rt.alloc(), stored)?;
    places.catalog = match catalog {
        Some(bytes) => Some(Vec::from_slice(rt.alloc(), bytes)?),
        None => None,
    };
    expect(rt, &mut places, trial)
}

#[test]
fn names_a_catalog_that_can_not_be_read(rt: HostRuntime) -> Result<(), Fail> {
    let stored = sample_store(rt.alloc())?;
    for (catalog, status, text) in CATALOGS.iter() {
        let told = ("recover S O 1", *status, "", *text, "S", 0);
        expect_catalog(&rt, &stored, *catalog, &told)?;
    }
    Ok(())
}

#[test]
fn names_an_output_that_can_not_be_made(rt: HostRuntime) -> Result<(), Fail> {
    let mut places = places_of(rt.alloc(), &sample_store(rt.alloc())?)?;
    places.is_made = true;
    let text = "fault: write OUT\n";
    expect(
        &rt,
        &mut places,
        &("recover S O 1", 4, "", text, "S > O", 0),
    )
}

const DAMAGED: &str = "fault: damaged p1.s1.seg\n";

/// Lines over a store with a damaged file and an output that exists already: that fault would come after the store's.
const REFUSED: [Trial; 5] = [
    ("check 3 S", 1, "", "fault: unsafe loss: 1,3,5\n", "S", 0),
    (
        "recover S O 1 3 5",
        1,
        "",
        "fault: unsafe loss: 1,3,5\n",
        "S",
        0,
    ),
    (
        "recover S O 1 3 6",
        1,
        "",
        "fault: unsafe loss: 1,3,6\n",
        "S",
        0,
    ),
    ("check 2 S", 1, "", DAMAGED, "S", 0),
    ("recover S O 2 3", 1, "", DAMAGED, "S", 0),
];

fn expect_damaged(
    rt: &(impl Threads + Sync + AllocGlobal + Abort),
    stored: &Stored,
    trial: &Trial,
) -> Result<(), Fail> {
    let mut places = places_of(rt.alloc(), stored)?;
    let segment = FileName::Seg { p: 1, s: 1 };
    places.files.put(segment, Vec::new(rt.alloc()))?;
    places.is_made = true;
    expect(rt, &mut places, trial)
}

#[test]
fn asks_for_no_output_of_a_refused_store(rt: HostRuntime) -> Result<(), Fail> {
    let stored = three_projections(rt.alloc())?;
    for trial in REFUSED.iter() {
        expect_damaged(&rt, &stored, trial)?;
    }
    Ok(())
}

/// A line, the room of standard output and of standard error, and what is left of it.
const FULL: [(&str, (usize, usize), (usize, usize)); 6] = [
    ("", (0, 99), (0, 99)),
    ("", (1, 99), (0, 99)),
    ("", (37, 99), (0, 99)),
    ("check 1 S", (13, 99), (0, 99)),
    ("recover S O 1", (10, 99), (0, 99)),
    ("restore", (99, 5), (99, 0)),
];

/// A line's status if the streams have this room, and the room that is left.
fn left_of(
    rt: &(impl Threads + Sync + AllocGlobal),
    stored: &Stored,
    line: &str,
    room: (usize, usize),
) -> Result<(u8, (usize, usize)), Fail> {
    let alloc = rt.alloc();
    let mut places = places_of(alloc, stored)?;
    let words = words(alloc, line)?;
    let mut out = Full { room: room.0 };
    let mut err = Full { room: room.1 };
    let got = run(rt, alloc, words.as_slice(), &mut places, &mut out, &mut err);
    Ok((got, (out.room, err.room)))
}

#[test]
fn fails_where_a_stream_is_full(rt: HostRuntime) -> Result<(), Fail> {
    let stored = sample_store(rt.alloc())?;
    for (line, room, left) in FULL.iter() {
        let got = left_of(&rt, &stored, line, *room)?;
        assert_eq!(rt; got, (4, *left), "{line}");
    }
    Ok(())
}
