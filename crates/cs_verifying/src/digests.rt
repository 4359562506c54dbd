//! The digests of a store.
ghost use Rattle.std.specs.Prelude.{◌≡◌, ℕ, List, IfOk};
ghost use Rattle.cs_manifest.specs.Digests.{digest};
ghost use Rattle.cs_parallel_io.specs.Standing.{standing};
ghost use Rattle.cs_verifying.specs.Promises.{DigestsStore};

use crate::one_site::{others, require_site};
use cs_manifest::{Digested, digest_files, digest_of};
use cs_schema::{Catalog, FileName};
use pinepolo_places::{Listings, VerbError, find_store_text, require_unchanged, watch};
use std::alloc::Global;
use std::marker::Sync;
use std::thread::Threads;

/// The digests of a store.
#[derive(Drop)]
pub struct StoreDigests {
    /// The catalog of the store.
    pub catalog: Catalog,
    /// The digest of that one's bytes.
    pub digest: [u8; 32],
    /// The files that were read, each with what it came to, in the order of their names.
    pub files: Vec<(FileName, Digested)>,
}

/// Reads the files of the store at this path, or those of one of its sites alone, in parallel. None is kept. A site that
/// the catalog lacks is refused.
pub fn digest_store<R: Threads + Sync, P: Listings>(
    rt: &R,
    alloc: Global,
    places: &mut P,
    path: &str,
    site: Option<u8>,
) -> Result<StoreDigests, VerbError>
    ensures { IfOk result (λ found. (bytes : List ℕ) × (found.digest ≡ digest bytes) × DigestsStore P.reads P.opens (standing P.Store.answers) (standing P.Store.fails)
        places.old path.now site found.catalog bytes found.files.items places.new) }
{
    let (catalog, bytes, source) = match find_store_text(alloc, places, path) {
        Ok(found) => found,
        Err(error) => return Err(error),
    };
    match require_site(alloc, &catalog, site, path) {
        Ok(()) => {}
        Err(error) => return Err(error),
    }
    let before = watch(alloc, places, path)?;
    let digested = digest_files(rt, alloc, &catalog, others(site), &source);
    require_unchanged(alloc, places, path, &before)?;
    match digested {
        Ok(files) => Ok(StoreDigests {
            catalog,
            digest: digest_of(bytes.as_slice()),
            files,
        }),
        Err(_) => Err(VerbError::OutOfMemory),
    }
}
