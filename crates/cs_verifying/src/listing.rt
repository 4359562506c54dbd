//! The verb `manifest`.
ghost use Rattle.std.specs.Prelude.{IfOk};
ghost use Rattle.cs_parallel_io.specs.Standing.{standing};
ghost use Rattle.cs_verifying.specs.Promises.{ListsStore};

use crate::digests::digest_store;
use cs_manifest::write_manifest;
use pinepolo_answers::Listed;
use pinepolo_places::{Listings, VerbError};
use std::alloc::Global;
use std::marker::Sync;
use std::thread::Threads;

/// The manifest of a store: its files that are there, with their digests; and those that are not. With a site, that site's
/// files alone.
pub fn list<R: Threads + Sync, P: Listings>(
    rt: &R,
    alloc: Global,
    places: &mut P,
    path: &str,
    site: Option<u8>,
) -> Result<Listed, VerbError>
    ensures { IfOk result (λ listed. ListsStore P.reads P.opens (standing P.Store.answers) (standing P.Store.fails)
        places.old path.now site listed places.new) }
{
    let found = match digest_store(rt, alloc, places, path, site) {
        Ok(found) => found,
        Err(error) => return Err(error),
    };
    match write_manifest(alloc, &found.digest, found.files.as_slice()) {
        Ok(text) => Ok(Listed {
            catalog: found.catalog,
            files: found.files,
            text,
        }),
        Err(_) => Err(VerbError::OutOfMemory),
    }
}
