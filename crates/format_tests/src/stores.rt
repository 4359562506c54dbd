//! Stores in memory: what is loaded and saved, and what a failure in mid-stream leaves.
use cs_catalog::read_catalog;
use cs_schema::{Catalog, FileName, Loss};
use cs_store::memory::{Failure, MemorySink, MemorySource, load_from_memory, save_to_memory};
use cs_store::{Fault, FileSet, Sink, Source, StoreFault, load, save};
use std::alloc::{AllocError, Global};
use std::fmt;
use std::fmt::Write;

const JOINED: &str = r#"
version = 1
table = "t"
key = "id"
sites = 2
[[column]]
name = "id"
kind = "int"
[[projection]]
name = "a"
columns = ["id"]
codes = [4]
sort = ["id"]
cuts = []
sites = [1]
joins = ["b"]
[[projection]]
name = "b"
columns = ["id"]
codes = [4]
sort = ["id"]
cuts = []
sites = [2]
joins = []
"#;

/// The names of the catalog, in order.
const NAMES: [FileName; 5] = [
    FileName::Seg { p: 0, s: 0 },
    FileName::Del { p: 0, s: 0 },
    FileName::Jix { p: 0, s: 0, q: 1 },
    FileName::Seg { p: 1, s: 0 },
    FileName::Del { p: 1, s: 0 },
];

const SEGMENT: FileName = FileName::Seg { p: 0, s: 0 };

/// Files of all names but the second, put in another order, and one that the catalog does not have.
fn files(alloc: Global) -> Result<FileSet, AllocError> {
    let mut files = FileSet::new(alloc)?;
    for (i, name) in NAMES.iter().enumerate().rev() {
        if i != 1 {
            files.put(*name, Vec::from_slice(alloc, &[i as u8, 7])?)?;
        }
    }
    files.put(FileName::Seg { p: 0, s: 10 }, Vec::new(alloc))?;
    Ok(files)
}

/// The names of the files in their order, each followed by a space.
fn listed(alloc: Global, files: &FileSet) -> Result<String, fmt::Error> {
    let mut names = String::new(alloc);
    for i in 0..files.len() {
        write!(names, "{} ", files.at(i).0)?;
    }
    Ok(names)
}

#[test]
fn lists_in_the_order_of_names(rt: HostRuntime) {
    let alloc = rt.alloc();
    let mut files = files(alloc).expect(&rt, "files");
    let again = Vec::from_slice(alloc, b"again").expect(&rt, "a file");
    files
        .put(SEGMENT, again)
        .expect(&rt, "a file in the place of another");
    let names = listed(alloc, &files).expect(&rt, "names");
    assert!(rt; names.as_str() == "p0.s0.seg p0.s0.q1.jix p0.s10.seg p1.s0.seg p1.s0.del ");
    assert!(rt; files.get(SEGMENT) == Some(b"again".as_slice()));
    assert!(rt; files.get(NAMES[1]).is_none());
}

/// Whether a load fails with this fault at the planned failure, and the source counted this many faults.
fn load_fails(
    alloc: Global,
    catalog: &Catalog,
    failure: Failure,
    wanted: Fault,
    faults: u64,
) -> Result<bool, AllocError> {
    let mut source = MemorySource::new(alloc, files(alloc)?, Some(failure));
    let answer = load(alloc, catalog, Loss::none(), &mut source).err();
    Ok(answer == Some(wanted) && source.failure.is_none() && source.faults() == faults)
}

#[test]
fn names_the_read_that_failed(rt: HostRuntime) {
    let catalog = read_catalog(rt.alloc(), JOINED.as_bytes()).expect(&rt, "a catalog");
    for (after, name) in (0u64..).zip(NAMES.iter()) {
        for (fault, wanted, faults) in [
            (StoreFault::Device, Fault::Read(*name), 1),
            (StoreFault::Memory, Fault::Memory, 0),
        ] {
            let failure = Failure { after, fault };
            let fails = load_fails(rt.alloc(), &catalog, failure, wanted, faults);
            assert!(rt; fails == Ok(true), "{wanted}");
        }
    }
}

/// Whether these are the first `count` of the files.
fn are_first(first: &FileSet, files: &FileSet, count: usize) -> bool {
    if first.len() != count || files.len() < count {
        return false;
    }
    for i in 0..count {
        if first.at(i).0 != files.at(i).0 {
            return false;
        }
    }
    true
}

/// Whether a save fails with this fault at the planned failure, and the sink counted this many faults and took no mark.
fn save_fails(
    alloc: Global,
    files: &FileSet,
    failure: Failure,
    wanted: Fault,
    faults: u64,
) -> Result<bool, AllocError> {
    let mut sink = MemorySink::new(alloc, FileSet::new(alloc)?, Some(failure));
    let answer = save(files, &mut sink);
    Ok(
        answer == Err(wanted)
            && are_first(&sink.files, files, failure.after as usize)
            && sink.mark.is_none()
            && sink.faults() == faults,
    )
}

#[test]
fn keeps_what_was_put_before_a_refusal(rt: HostRuntime) {
    let files = files(rt.alloc()).expect(&rt, "files");
    for after in 0..=files.len() {
        let next = if after < files.len() {
            Some(files.at(after).0)
        } else {
            None
        };
        for (fault, wanted, faults) in [
            (StoreFault::Device, Fault::Write(next), 1),
            (StoreFault::Memory, Fault::Memory, 0),
        ] {
            let failure = Failure {
                after: after as u64,
                fault,
            };
            let fails = save_fails(rt.alloc(), &files, failure, wanted, faults);
            assert!(rt; fails == Ok(true), "{wanted}");
        }
    }
}

#[test]
fn loads_with_ample_memory(rt: HostRuntime) {
    let alloc = rt.alloc();
    let catalog = read_catalog(alloc, JOINED.as_bytes()).expect(&rt, "a catalog");
    let mut source = MemorySource::new(alloc, files(alloc).expect(&rt, "files"), None);
    let surviving = load(alloc, &catalog, Loss::none().with(2), &mut source).expect(
        &rt,
        "the files of the first site",
    );
    assert!(rt; surviving.len() == 2 && surviving.get(SEGMENT) == Some([0, 7].as_slice()));
    let all = load_from_memory(alloc, &catalog, Loss::none(), &mut source).expect(&rt, "all files");
    assert!(rt; all.len() == 4);
}

#[test]
fn saves_with_ample_memory(rt: HostRuntime) {
    let files = files(rt.alloc()).expect(&rt, "files");
    let none = FileSet::new(rt.alloc()).expect(&rt, "no files");
    let mut sink = MemorySink::new(rt.alloc(), none, None);
    assert!(rt; sink.files.is_empty());
    assert!(rt; save_to_memory(&files, &mut sink).is_ok());
    assert!(rt; sink.files.len() == 5 && sink.mark == Some(5));
    assert!(rt; sink.files.get(SEGMENT) == Some([0, 7].as_slice()));
}

/// The text of each fault, a line each.
fn lines(alloc: Global, faults: &[Fault]) -> Result<String, fmt::Error> {
    let mut text = String::new(alloc);
    for fault in faults {
        writeln!(text, "{fault}")?;
    }
    Ok(text)
}

#[test]
fn shows_each_fault(rt: HostRuntime) {
    let faults = [
        Fault::Memory,
        Fault::Site,
        Fault::BadK,
        Fault::Unsafe(Loss::none().with(1).with(3)),
        Fault::Unsafe(Loss::none()),
        Fault::Missing(SEGMENT),
        Fault::Damaged(SEGMENT),
        Fault::Astray { p: 0, s: 0, row: 1 },
        Fault::Twice,
        Fault::Full { p: 1, s: 0 },
        Fault::Misplaced { p: 2, s: 0 },
        Fault::Misled { p: 1, s: 0, q: 0 },
        Fault::Read(SEGMENT),
        Fault::Write(Some(SEGMENT)),
        Fault::Write(None),
    ];
    let wanted = "want of memory
loss names a site outside the catalog
k above 3
unsafe loss: 1,3
unsafe loss: none
missing p0.s0.seg
damaged p0.s0.seg
astray p0.s0 row 1
primary key twice
full p1.s0
misplaced p2.s0
misled p1.s0.q0
read p0.s0.seg
write p0.s0.seg
write DONE
";
    let text = lines(rt.alloc(), &faults).expect(&rt, "a text");
    assert_eq!(rt; text.as_str(), wanted);
}
