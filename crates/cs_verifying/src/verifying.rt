//! The verb `verify`.
ghost use Rattle.std.specs.Prelude.{IfOk};
ghost use Rattle.cs_parallel_io.specs.Standing.{standing};
ghost use Rattle.cs_verifying.specs.Promises.{VerifiesStore};

use crate::digests::digest_store;
use crate::reading::manifest_at;
use cs_manifest::compare;
use pinepolo_answers::Verified;
use pinepolo_places::{Listings, Tables, VerbError};
use std::alloc::Global;
use std::marker::Sync;
use std::thread::Threads;

/// Which files of a store are not those of a manifest. With a site, that site's files alone are compared.
pub fn verify<R: Threads + Sync, P: Listings + Tables>(
    rt: &R,
    alloc: Global,
    places: &mut P,
    path: &str,
    manifest_path: &str,
    site: Option<u8>,
) -> Result<Verified, VerbError>
    ensures { IfOk result (λ verified. VerifiesStore P.reads P.opens (standing P.Store.answers) (standing P.Store.fails) P.opens_table P.Input.remaining
        places.old path.now manifest_path.now site verified places.new) }
{
    let manifest = match manifest_at(alloc, places, manifest_path) {
        Ok(manifest) => manifest,
        Err(error) => return Err(error),
    };
    let found = match digest_store(rt, alloc, places, path, site) {
        Ok(found) => found,
        Err(error) => return Err(error),
    };
    match compare(alloc, &manifest, &found.digest, found.files.as_slice()) {
        Ok(comparison) => Ok(Verified {
            catalog: found.catalog,
            files: found.files.len() + 1,
            comparison,
        }),
        Err(_) => Err(VerbError::OutOfMemory),
    }
}
