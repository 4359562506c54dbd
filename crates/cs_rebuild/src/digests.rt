//! The digests of surviving files, compared independently of the files' bodies.
ghost use Rattle.std.specs.Prelude.{◌≡◌, ◌<◌, IsTrue, IfOk, List, ℕ};
ghost use Rattle.std.specs.Borrow.{Bor};
ghost use Rattle.cs_schema.specs.FileNames.{name_cmp};
ghost use Rattle.cs_schema.specs.Lists.{IsIn};
ghost use Rattle.std.specs.List.Sorted.{IsStrictlySortedBy};
ghost use Rattle.cs_store.specs.FileSet.{contents_of};
ghost use Rattle.cs_rebuild.specs.Reading.{AreDigests, AreDigestsAmong, AreSealedAmong, AreThere};

use crate::hash_batches::are_sealed_at_once;
use crate::run::Run;
use cs_schema::{Catalog, FileName, Loss};
use cs_segment::seal::is_sealed;
use cs_store::FileSet;
use std::alloc::{AllocError, Global};
use std::cmp::Reverse;
use std::marker::Sync;
use std::thread::Threads;

/// The files under these names, as far as they exist.
fn files_there<'a>(
    alloc: Global,
    names: &[FileName],
    files: &'a FileSet,
) -> Result<Vec<&'a [u8]>, AllocError>
    ensures { IfOk result (λ there. AreThere (contents_of files.now) names.now there.items) }
{
    let mut there = Vec::with_capacity(alloc, names.len())?;
    for name in names {
        let Some(bytes) = files.get(*name) else {
            continue;
        };
        there.push(bytes)?;
    }
    Ok(there)
}

/// The files by length, the longest first.
fn longest_first<'a>(files: Vec<&'a [u8]>) -> Vec<&'a [u8]>
    ensures { (f : Bor (List ℕ)) → IsIn f files.entry.items → IsIn f result.items }
{
    let mut files = files;
    files.sort_unstable_by_key(|file: &&[u8]| -> Reverse<usize> { Reverse(file.len()) });
    files
}

/// The number of hashing threads for a number of workers. No round waits for digests, so they leave processors to the
/// rounds.
fn digests_at_once(workers: u32) -> usize
    ensures { 0 < result }
{
    (workers as usize / 2).max(2)
}

/// Whether each file under these names that exists ends in the digest of its body. False if memory is refused.
fn are_sealed<R: Threads + Sync, G>(
    run: &Run<'_, R, G>,
    names: &[FileName],
    files: &FileSet,
) -> bool
    ensures { IsTrue result → AreSealedAmong (contents_of files.now) names.now }
{
    match files_there(run.alloc, names, files) {
        Ok(there) => {
            let there = longest_first(there);
            let at_once = digests_at_once(run.workers);
            are_sealed_at_once(run.rt, run.alloc, there.as_slice(), at_once)
        }
        Err(_) => false,
    }
}

/// The first of some ascending names whose file exists and does not end in the digest of its body.
fn first_unsealed(names: &[FileName], files: &FileSet) -> Option<FileName>
    requires { IsStrictlySortedBy name_cmp names.now }
    ensures { AreDigestsAmong (contents_of files.now) names.now result }
{
    for name in names {
        let Some(bytes) = files.get(*name) else {
            continue;
        };
        if !is_sealed(bytes) {
            return Some(*name);
        }
    }
    None
}

/// The first surviving file by name that does not end in the digest of its body, if any.
///
/// Files are hashed in parallel. Only if one is wrong are they hashed again, in the order of names. Fails only if
/// memory is refused.
pub fn least_unsealed<R: Threads + Sync, G>(
    run: &Run<'_, R, G>,
    catalog: &Catalog,
    loss: Loss,
    files: &FileSet,
) -> Result<Option<FileName>, AllocError>
    ensures { IfOk result (AreDigests catalog.now loss (contents_of files.now)) }
{
    let _rules = catalog.projection_count();
    let names = catalog.surviving(run.alloc, loss)?;
    if are_sealed(run, names.as_slice(), files) {
        return Ok(None);
    }
    Ok(first_unsealed(names.as_slice(), files))
}
