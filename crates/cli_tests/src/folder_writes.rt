//! Outputs.
use crate::made_folders::fresh;
use cs_folders::{FileLimits, OutputFolder, StoreFolder};
use cs_schema::FileName;
use cs_store::{Sink, Source, StoreFault};
use std::alloc::Global;
use std::fs;
use std::rt::Files;

const SEGMENT: FileName = FileName::Seg { p: 0, s: 0 };

const DELTA: FileName = FileName::Del { p: 0, s: 0 };

const JOIN_INDEX: FileName = FileName::Jix { p: 1, s: 0, q: 0 };

/// The contents of the files of an output.
const WRITTEN: [(&str, &str); 3] = [
    ("written/out/p0.s0.seg", "segment"),
    ("written/out/p1.s0.q0.jix", ""),
    ("written/out/DONE", "files=2\n"),
];

/// Whether a segment and a join index are put, and then the mark.
fn writes<R: Files>(output: &mut OutputFolder<R>) -> bool {
    output.put(SEGMENT, b"segment").is_ok()
        && output.put(JOIN_INDEX, b"").is_ok()
        && output.mark(2).is_ok()
        && output.faults() == 0
}

/// Whether a file has this text.
fn has_text(rt: &(impl Files + AllocGlobal), path: &str, wanted: &str) -> bool {
    match fs::read_to_string(rt, path) {
        Ok(text) => text.as_str() == wanted,
        Err(_) => false,
    }
}

/// Whether a file with these bytes was read, or no file.
fn is_file(read: Result<Option<Vec<u8>>, StoreFault>, wanted: Option<&[u8]>) -> bool {
    match read {
        Ok(Some(bytes)) => wanted == Some(bytes.as_slice()),
        Ok(None) => wanted.is_none(),
        Err(_) => false,
    }
}

/// Whether the store in a folder has a segment of these bytes, but no delta and no catalog.
fn has_segment_alone<R: Files + Drop>(alloc: Global, rt: R, path: &str, wanted: &[u8]) -> bool {
    let Ok(mut store) = StoreFolder::new(alloc, rt, path, FileLimits::Fixed) else {
        return false;
    };
    is_file(store.read(SEGMENT), Some(wanted))
        && is_file(store.read(DELTA), None)
        && is_file(store.catalog(), None)
        && store.faults() == 0
}

#[test]
fn writes_files_and_then_the_mark(rt: HostRuntime) {
    fresh(&rt, "written").expect(&rt, "a folder");
    let Ok(mut output) = OutputFolder::make(rt.alloc(), rt, "written/out") else {
        panic!(rt; "no output");
    };
    assert!(rt; writes(&mut output));
    for (path, text) in WRITTEN {
        assert!(rt; has_text(&rt, path, text), "{path}");
    }
    assert!(rt; has_segment_alone(rt.alloc(), rt, "written/out", b"segment"));
}

/// Why no output is made.
fn refusal<R: Files + Drop>(alloc: Global, rt: R, path: &str) -> Option<StoreFault> {
    OutputFolder::make(alloc, rt, path).err()
}

#[test]
fn makes_no_folder_in_the_place_of_another(rt: HostRuntime) {
    fresh(&rt, "places").expect(&rt, "a folder");
    fs::write(&rt, "places/file", "").expect(&rt, "a file");
    for path in ["places", "places/file", "places/none/out"] {
        assert!(rt;
            refusal(rt.alloc(), rt, path) == Some(StoreFault::Device),
            "{path}"
        );
    }
}

#[test]
fn an_output_that_is_gone_counts_faults(rt: HostRuntime) {
    fresh(&rt, "gone").expect(&rt, "a folder");
    let Ok(mut output) = OutputFolder::make(rt.alloc(), rt, "gone/out") else {
        panic!(rt; "no output");
    };
    fs::remove_dir(&rt, "gone/out").expect(&rt, "no folder");
    assert!(rt; output.put(SEGMENT, b"") == Err(StoreFault::Device));
    assert!(rt; output.mark(0) == Err(StoreFault::Device));
    assert!(rt; output.faults() == 2);
}
