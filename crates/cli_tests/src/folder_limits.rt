//! How long files may be.
ghost use Rattle.std.specs.Prelude.{◌<◌, ◌^◌};

use crate::made_folders::{fresh, sparse};
use cs_catalog::read_catalog;
use cs_folders::{CATALOG_LIMIT, FileLimits, StoreFolder, read_bounded};
use cs_schema::FileName;
use cs_schema::samples::TWO_ORDERS;
use cs_store::StoreFault;
use std::alloc::Global;
use std::rt::Files;

/// The limits of files under the catalog of two orders, and without a catalog.
const LIMITS: [(FileName, u64, u64); 3] = [
    (FileName::Seg { p: 0, s: 0 }, 41_943_102, 34_359_738_368),
    (FileName::Del { p: 0, s: 0 }, 192_938_049, 34_359_738_368),
    (
        FileName::Jix { p: 1, s: 0, q: 0 },
        25_165_874,
        34_359_738_368,
    ),
];

#[test]
fn limits_files_by_their_catalog(rt: HostRuntime) {
    let catalog = read_catalog(rt.alloc(), TWO_ORDERS.as_bytes()).expect(&rt, "a catalog");
    let limits = FileLimits::of(&catalog);
    for (name, limit, fixed) in LIMITS {
        assert!(rt; limits.limit_of(name) == limit, "{name}");
        assert!(rt; FileLimits::Fixed.limit_of(name) == fixed, "{name}");
    }
}

/// The length of the catalog in a folder, or why there is none.
fn catalog_length<R: Files + Drop>(
    alloc: Global,
    rt: R,
    path: &str,
) -> Result<Option<u64>, StoreFault> {
    let Ok(mut store) = StoreFolder::new(alloc, rt, path, FileLimits::Fixed) else {
        return Err(StoreFault::Memory);
    };
    match store.catalog() {
        Ok(Some(bytes)) => Ok(Some(bytes.len() as u64)),
        Ok(None) => Ok(None),
        Err(fault) => Err(fault),
    }
}

#[test]
fn reads_a_catalog_up_to_its_limit(rt: HostRuntime) {
    fresh(&rt, "catalogs").expect(&rt, "a folder");
    for (length, wanted) in [
        (1_048_576, Ok(Some(CATALOG_LIMIT))),
        (1_048_577, Err(StoreFault::Device)),
    ] {
        sparse(&rt, "catalogs/catalog.toml", length).expect(&rt, "a catalog");
        assert!(rt;
            catalog_length(rt.alloc(), rt, "catalogs") == wanted,
            "{length} bytes"
        );
    }
}

/// Three bytes, if the bound has room for them.
fn abc(alloc: Global, limit: u64) -> Result<Vec<u8>, StoreFault>
    requires { limit < 2 ^ 63 }
{
    let mut file: &[u8] = b"abc";
    read_bounded(alloc, &mut file, limit)
}

/// Whether a call gave these bytes.
fn are_bytes(given: Result<Vec<u8>, StoreFault>, wanted: &[u8]) -> bool {
    match given {
        Ok(bytes) => bytes.as_slice() == wanted,
        Err(_) => false,
    }
}

#[test]
fn reads_up_to_a_bound(rt: HostRuntime) {
    assert!(rt; are_bytes(abc(rt.alloc(), 3), b"abc"));
    assert!(rt; matches!(abc(rt.alloc(), 2), Err(StoreFault::Device)));
}
