//! The program over folders of the system that are made where the tests run.
use crate::expecting::{answer_of, expect_answer};
use crate::stores::{Stored, sample_store};
use cs_commands::{Folders, Places};
use std::fs;
use std::fs::{File, OpenFile};
use std::marker::Sync;
use std::process::Abort;
use std::rt::Files;
use std::test::Fail;
use std::thread::Threads;

/// A line, its status, and the texts of standard output and standard error.
type Line = (&'static str, u8, &'static str, &'static str);

/// Lines over the sample's store, in a folder of its own.
const LINES: [Line; 6] = [
    ("check 1 tried/S", 0, "ok rows=4 k=1\n", ""),
    ("recover tried/S tried/O 1", 0, "ok files=2\n", ""),
    ("recover tried/S tried/O 1", 4, "", "fault: write OUT\n"),
    (
        "recover tried/S tried/none/O 1",
        4,
        "",
        "fault: write OUT\n",
    ),
    ("check 1 tried/none", 4, "", "fault: read catalog.toml\n"),
    (
        "recover tried/none tried/P 1",
        4,
        "",
        "fault: read catalog.toml\n",
    ),
];

/// Runs lines over places, and expects their statuses and texts.
fn expect_over<P: Places>(
    rt: &(impl Threads + Sync + AllocGlobal + Abort),
    places: &mut P,
    lines: &[Line],
) -> Result<(), Fail> {
    for (line, status, out, err) in lines {
        let answer = answer_of(rt, line, places)?;
        expect_answer(rt, line, &answer, *status, out, err);
    }
    Ok(())
}

/// Writes a store into a folder.
fn put_store(rt: &(impl Files + AllocGlobal), folder: &str, stored: &Stored) -> Result<(), Fail> {
    fs::create_dir(rt, folder)?;
    put_file(rt, folder, "catalog.toml", stored.catalog.as_slice())?;
    for i in 0..stored.files.len() {
        let (name, bytes) = stored.files.at(i);
        let name = format!(in rt.alloc(); "{name}")?;
        put_file(rt, folder, name.as_str(), bytes)?;
    }
    Ok(())
}

fn put_file(
    rt: &(impl Files + AllocGlobal),
    folder: &str,
    name: &str,
    bytes: &[u8],
) -> Result<(), Fail> {
    let path = format!(in rt.alloc(); "{folder}/{name}")?;
    Ok(fs::write(rt, path.as_str(), bytes)?)
}

const TOO_LONG: [Line; 1] = [("check 1 tried/S", 4, "", "fault: read p1.s0.seg\n")];

/// Puts a file that is longer than any may be.
fn put_too_long(rt: &impl Files, path: &str) -> Result<(), Fail> {
    let file = File::create(rt, path)?;
    Ok(file.set_len(40_000_000_000)?)
}

const NO_FILE: [Line; 1] = [("check 1 tried/S", 4, "", "fault: read p0.s0.del\n")];

/// Puts a folder in place of a file.
fn put_folder(rt: &impl Files, path: &str) -> Result<(), Fail> {
    fs::remove_file(rt, path)?;
    Ok(fs::create_dir(rt, path)?)
}

#[test]
fn runs_over_folders(rt: HostRuntime) -> Result<(), Fail> {
    let _ = fs::remove_dir_all(&rt, "tried");
    fs::create_dir(&rt, "tried")?;
    put_store(&rt, "tried/S", &sample_store(rt.alloc())?)?;
    let mut places = Folders::new(rt.alloc(), rt);
    expect_over(&rt, &mut places, &LINES)?;
    let mark = fs::read_to_string(&rt, "tried/O/DONE")?;
    assert_eq!(rt; mark.as_str(), "files=2\n");
    put_too_long(&rt, "tried/S/p1.s0.seg")?;
    expect_over(&rt, &mut places, &TOO_LONG)?;
    put_folder(&rt, "tried/S/p0.s0.del")?;
    expect_over(&rt, &mut places, &NO_FILE)?;
    fs::remove_dir_all(&rt, "tried")?;
    Ok(())
}
