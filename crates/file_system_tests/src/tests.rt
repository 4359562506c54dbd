//! The calls of each step, and where it stops if one fails.
use crate::memory::MemoryFiles;
use cs_file_system::{
    EndOfWork, FileSystem, Replacement, Standing, begin_mark, begin_record, end_recorded, end_work,
    mark, move_back, put_folder, put_new, put_owned, replace_kept, rewrite_record, take_away,
    unmark, write_synced,
};
use std::alloc::{AllocError, Global};
use std::io;
use std::process::Abort;

/// The calls that were made, each with a semicolon behind it.
fn calls(alloc: Global, files: &MemoryFiles) -> Result<String, AllocError> {
    let mut text = String::new(alloc);
    for event in &files.log.events {
        let line = format!(in alloc; "{event}; ")?;
        text.push_str(line.as_str())?;
    }
    Ok(text)
}

/// Asserts that a step was done by these calls.
fn expect(rt: &impl Abort, alloc: Global, files: &MemoryFiles, done: io::Result<()>, want: &str) {
    assert!(rt; done.is_ok(), "{want}");
    expect_calls(rt, alloc, files, want);
}

/// Asserts that these calls were made.
fn expect_calls(rt: &impl Abort, alloc: Global, files: &MemoryFiles, want: &str) {
    let made = calls(alloc, files).expect(rt, "memory");
    assert_eq!(rt; made.as_str(), want);
}

/// No calls yet, and none that fails.
fn empty(alloc: Global) -> MemoryFiles {
    MemoryFiles::new(alloc, None)
}

const PUT: &str = "remove a.new; create a.new; write a.new; sync a.new; rename a.new a; ";

const PUT_FOLDER: &str = "sync folder s.new; rename s.new s; sync folder .; ";

const MARK: &str =
    "sync folder o; create o/DONE; write o/DONE; sync o/DONE; sync folder o; sync folder .; ";

#[test]
fn places(rt: HostRuntime) {
    let alloc = rt.alloc();
    let mut files = empty(alloc);
    let done = put_owned(&mut files, ".", "a.new", "a", b"1");
    expect(&rt, alloc, &files, done, PUT);
    let mut files = empty(alloc);
    let done = put_folder(&mut files, "s.new", "s", ".");
    expect(&rt, alloc, &files, done, PUT_FOLDER);
    let mut files = empty(alloc);
    let done = mark(&mut files, "o", ".", "o/DONE", b"1");
    expect(&rt, alloc, &files, done, MARK);
    let mut files = empty(alloc);
    let done = unmark(&mut files, "s", "s/R");
    expect(&rt, alloc, &files, done, "sync folder s; finish s/R; ");
}

/// What a new record's calls are if none fails, or that after so many.
const BEGUN: [&str; 6] = [
    "",
    "create s/R.1; remove s/R.1; ",
    "create s/R.1; write s/R.1; remove s/R.1; ",
    "create s/R.1; write s/R.1; sync s/R.1; remove s/R.1; ",
    "create s/R.1; write s/R.1; sync s/R.1; link s/R.1 s/R; remove s/R; remove s/R.1; ",
    "create s/R.1; write s/R.1; sync s/R.1; link s/R.1 s/R; sync folder s; ",
];

#[test]
fn begins_a_record(rt: HostRuntime) {
    let alloc = rt.alloc();
    for (before_failure, want) in BEGUN.iter().enumerate() {
        let mut files = MemoryFiles::new(alloc, Some(before_failure as u64));
        let begun = begin_record(&mut files, alloc, "s", "s/R", b"1");
        assert_eq!(rt; begun.is_ok(), before_failure == 5);
        expect_calls(&rt, alloc, &files, want);
    }
}

const TAKEN: &str = "create s/R.2; write s/R.2; sync s/R.2; remove s/R.2; ";

const REWRITTEN: &str = "create s/R.1; write s/R.1; sync s/R.1; rename s/R.1 s/R; sync folder s; ";

#[test]
fn rewrites_a_record(rt: HostRuntime) {
    let alloc = rt.alloc();
    let mut files = empty(alloc);
    let mut lock = files.open_end("s/R").expect(&rt, "memory");
    files.log.events.clear();
    let done = rewrite_record(&mut files, alloc, "s", "s/R", b"1", &mut lock);
    expect(&rt, alloc, &files, done, REWRITTEN);
    // another program has the record, and a third one is about to
    files.log.events.clear();
    files
        .let_stand("s/R.1", Standing::File)
        .expect(&rt, "memory");
    let begun = begin_record(&mut files, alloc, "s", "s/R", b"1").expect(&rt, "memory");
    assert!(rt; begun.is_none());
    expect_calls(&rt, alloc, &files, TAKEN);
}

/// The calls by which work ends, and of a log that could not be put in place the one by which it is taken away.
const ENDED: [&str; 11] = [
    "remove s/log.new; ",
    "create s/log.new; ",
    "write s/log.new; ",
    "sync s/log.new; ",
    "rename s/log.new s/log; ",
    "sync folder s; ",
    "keep s/R s/replaced/1/R; ",
    "sync folder d; ",
    "sync folder s/replaced/1; ",
    "sync folder s; ",
    "finish s/R; ",
];

/// The first calls by which work ends.
fn first_of_ended(alloc: Global, count: u64) -> Result<String, AllocError> {
    let mut text = String::new(alloc);
    let mut left = count;
    for call in ENDED.iter() {
        if left == 0 {
            break;
        }
        text.push_str(call)?;
        left -= 1;
    }
    Ok(text)
}

fn work(alloc: Global) -> Result<EndOfWork, AllocError> {
    let mut changed = Vec::new(alloc);
    changed.push(String::from_str(alloc, "d")?)?;
    Ok(EndOfWork {
        folder: String::from_str(alloc, "s")?,
        changed,
        log: String::from_str(alloc, "s/log")?,
        beside: String::from_str(alloc, "s/log.new")?,
        mark: String::from_str(alloc, "s/R")?,
        kept: String::from_str(alloc, "s/replaced/1")?,
        kept_mark: String::from_str(alloc, "s/replaced/1/R")?,
    })
}

#[test]
fn ends_work(rt: HostRuntime) {
    let alloc = rt.alloc();
    let work = work(alloc).expect(&rt, "memory");
    for before_failure in 0..12 {
        let mut files = MemoryFiles::new(alloc, Some(before_failure));
        let ended = end_work(&mut files, &work, b"1");
        assert_eq!(rt; ended.is_ok(), before_failure == 11);
        let mut want = first_of_ended(alloc, before_failure).expect(&rt, "memory");
        if (2..5).contains(&before_failure) {
            want.push_str("remove s/log.new; ").expect(&rt, "memory");
        }
        expect_calls(&rt, alloc, &files, want.as_str());
    }
    let mut files = empty(alloc);
    let done = end_recorded(&mut files, &work);
    let want = "sync folder d; sync folder s/replaced/1; sync folder s; finish s/R; ";
    expect(&rt, alloc, &files, done, want);
}

const FILE_BACK: &str = "see k/1/a; see k/2/a; sync folder k/2; rename k/1/a a; ";

const FOLDER_BACK: &str =
    "see k/1/b; miss k/2/b; miss b; sync folder k/2; remove b; rename k/1/b b; ";

#[test]
fn moves_back(rt: HostRuntime) {
    let alloc = rt.alloc();
    let mut files = empty(alloc);
    for file in ["k/1/a", "k/2/a", "k/1/c", "c"] {
        files.let_stand(file, Standing::File).expect(&rt, "memory");
    }
    files
        .let_stand("k/1/b", Standing::Folder)
        .expect(&rt, "memory");
    let done = move_back(&mut files, "k/1/a", "a", "k/2/a", "k/2");
    expect(&rt, alloc, &files, done, FILE_BACK);
    files.log.events.clear();
    let done = move_back(&mut files, "k/1/b", "b", "k/2/b", "k/2");
    expect(&rt, alloc, &files, done, FOLDER_BACK);
    files.log.events.clear();
    let done = move_back(&mut files, "k/1/b", "b", "k/2/b", "k/2");
    expect(&rt, alloc, &files, done, "miss k/1/b; ");
    // what stands there is not kept
    files.log.events.clear();
    assert!(rt; move_back(&mut files, "k/1/c", "c", "k/2/c", "k/2").is_err());
    expect_calls(&rt, alloc, &files, "see k/1/c; miss k/2/c; see c; ");
}

const REPLACED: &str =
    "remove a.new; create a.new; write a.new; sync a.new; see k/a; sync folder k; \
rename a.new a; ";

/// The paths of a file that is kept in the folder `k`.
fn replacement(alloc: Global, path: &str) -> Result<Replacement, AllocError> {
    Ok(Replacement {
        folder: String::from_str(alloc, ".")?,
        path: String::from_str(alloc, path)?,
        beside: format!(in alloc; "{path}.new")?,
        kept: format!(in alloc; "k/{path}")?,
        kept_folder: String::from_str(alloc, "k")?,
    })
}

#[test]
fn replaces_what_is_kept(rt: HostRuntime) {
    let alloc = rt.alloc();
    let mut files = empty(alloc);
    for file in ["a", "k/a", "b"] {
        files.let_stand(file, Standing::File).expect(&rt, "memory");
    }
    let paths = replacement(alloc, "a").expect(&rt, "memory");
    let done = replace_kept(&mut files, &paths, b"1");
    expect(&rt, alloc, &files, done, REPLACED);
    files.log.events.clear();
    let done = take_away(&mut files, &paths);
    expect(
        &rt,
        alloc,
        &files,
        done,
        "see k/a; sync folder k; remove a; ",
    );
    // what stands there is not kept
    files.log.events.clear();
    let paths = replacement(alloc, "b").expect(&rt, "memory");
    assert!(rt; take_away(&mut files, &paths).is_err());
    expect_calls(&rt, alloc, &files, "miss k/b; see b; ");
}

/// What a new file's calls are in a file system with hard links, in one without, and if the name is taken.
const NEW_BY_LINK: &str =
    "create a.partial.1; write a.partial.1; sync a.partial.1; link a.partial.1 a; \
remove a.partial.1; sync folder .; ";

const NEW_BY_FILE: &str =
    "create a.partial.1; write a.partial.1; sync a.partial.1; create a; rename a.partial.1 a; \
sync folder .; ";

const NEW_REFUSED: &str =
    "create a.partial.1; write a.partial.1; sync a.partial.1; remove a.partial.1; ";

#[test]
fn takes_a_name(rt: HostRuntime) {
    let alloc = rt.alloc();
    let mut files = empty(alloc);
    let done = put_new(&mut files, alloc, "a.partial", "a", ".", b"1");
    expect(&rt, alloc, &files, done, NEW_BY_LINK);
    let mut files = empty(alloc);
    files.links = false;
    let done = put_new(&mut files, alloc, "a.partial", "a", ".", b"1");
    expect(&rt, alloc, &files, done, NEW_BY_FILE);
    // the name is taken, whether there are links or not
    for links in [true, false] {
        let mut files = empty(alloc);
        files.links = links;
        files.let_stand("a", Standing::File).expect(&rt, "memory");
        assert!(rt; put_new(&mut files, alloc, "a.partial", "a", ".", b"1").is_err());
        expect_calls(&rt, alloc, &files, NEW_REFUSED);
    }
}

#[test]
fn leaves_no_part_of_a_file(rt: HostRuntime) {
    let alloc = rt.alloc();
    let mut files = MemoryFiles::new(alloc, Some(1));
    assert!(rt; write_synced(&mut files, "a", b"1").is_err());
    expect_calls(&rt, alloc, &files, "create a; remove a; ");
    let mut files = empty(alloc);
    let marked = begin_mark(&mut files, "s/LOADING", b"1");
    assert!(rt; marked.is_ok());
    expect_calls(
        &rt,
        alloc,
        &files,
        "create s/LOADING; write s/LOADING; sync s/LOADING; ",
    );
    // another run's mark is not taken
    files.log.events.clear();
    assert!(rt; begin_mark(&mut files, "s/LOADING", b"1").is_err());
    expect_calls(&rt, alloc, &files, "");
}
