//! Stores.
use crate::made_folders::{fresh, sparse};
use cs_catalog::read_catalog;
use cs_folders::{FileLimits, StoreFolder};
use cs_schema::FileName;
use cs_schema::samples::TWO_ORDERS;
use cs_store::{Source, StoreFault};
use std::alloc::Global;
use std::os::unix::fs::symlink;
use std::rt::Files;
use std::{fs, io};

const SEGMENT: FileName = FileName::Seg { p: 0, s: 0 };

/// What is under the name of a segment.
#[derive(Clone, Copy)]
enum Place<'a> {
    Folder,
    /// A link.
    Link(&'a str),
    /// A link to a file beside it with this text.
    LinkTo(&'a str),
    /// A file of this many bytes.
    Sparse(u64),
}

/// Folders with a segment, what is there, and the length of what is read.
const PLACES: [(&str, &str, Place, Result<Option<usize>, StoreFault>); 5] = [
    (
        "kinds/a",
        "kinds/a/p0.s0.seg",
        Place::Folder,
        Err(StoreFault::Device),
    ),
    (
        "kinds/b",
        "kinds/b/p0.s0.seg",
        Place::Link("/dev/zero"),
        Err(StoreFault::Device),
    ),
    (
        "kinds/c",
        "kinds/c/p0.s0.seg",
        Place::Link("nowhere"),
        Ok(None),
    ),
    (
        "kinds/d",
        "kinds/d/p0.s0.seg",
        Place::LinkTo("abc"),
        Ok(Some(3)),
    ),
    (
        "kinds/e",
        "kinds/e/p0.s0.seg",
        Place::Sparse(40_000_000_000),
        Err(StoreFault::Device),
    ),
];

fn put(rt: &(impl Files + AllocGlobal), path: &str, place: Place) -> io::Result<()> {
    match place {
        Place::Folder => fs::create_dir(rt, path),
        Place::Link(target) => symlink(rt, target, path),
        Place::LinkTo(text) => {
            fs::write(rt, "kinds/file", text)?;
            symlink(rt, "../file", path)
        }
        Place::Sparse(length) => sparse(rt, path, length),
    }
}

/// Whether this is the length of the segment of the store in a folder, or why there is none: one fault of its device.
fn has_length<R: Files + Drop>(
    alloc: Global,
    rt: R,
    path: &str,
    limits: FileLimits,
    wanted: Result<Option<usize>, StoreFault>,
) -> bool {
    let Ok(mut store) = StoreFolder::new(alloc, rt, path, limits) else {
        return false;
    };
    let length = match store.read(SEGMENT) {
        Ok(Some(bytes)) => Ok(Some(bytes.len())),
        Ok(None) => Ok(None),
        Err(fault) => Err(fault),
    };
    length == wanted && store.faults() == u64::from(wanted.is_err())
}

#[test]
fn reads_nothing_but_files(rt: HostRuntime) {
    fresh(&rt, "kinds").expect(&rt, "a folder");
    for (folder, path, place, wanted) in PLACES {
        fs::create_dir(&rt, folder).expect(&rt, "a store's folder");
        put(&rt, path, place).expect(&rt, "a segment");
        assert!(rt;
            has_length(rt.alloc(), rt, folder, FileLimits::Fixed, wanted),
            "{folder}"
        );
    }
    fs::remove_dir_all(&rt, "kinds").expect(&rt, "no folder");
}

#[test]
fn reads_no_file_above_its_limit(rt: HostRuntime) {
    fresh(&rt, "long").expect(&rt, "a folder");
    sparse(&rt, "long/p0.s0.seg", 41_943_103).expect(&rt, "a segment");
    let catalog = read_catalog(rt.alloc(), TWO_ORDERS.as_bytes()).expect(&rt, "a catalog");
    let limits = FileLimits::of(&catalog);
    assert!(rt; has_length(rt.alloc(), rt, "long", limits, Err(StoreFault::Device)));
}
