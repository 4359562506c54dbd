//! Files whose digests are made in parallel, before they are asked for.
ghost use Rattle.std.specs.Prelude.{IfOk};
ghost use Rattle.std.specs.List.Sorted.{IsPermutation};
ghost use Rattle.cs_parallel_io.specs.Standing.{standing};
ghost use Rattle.cs_manifest.specs.Digests.{DigestsFile};
ghost use Rattle.cs_manifest.specs.Ahead.{DigestsName, DigestsEach};

use crate::digesting::{Digested, digest_file};
use cs_parallel_io::{SharedSource, dealt};
use cs_schema::FileName;
use rayon::prelude::*;
use std::alloc::{AllocError, Global};
use std::cmp::Reverse;
use std::marker::Sync;
use std::thread::Threads;

/// A file that was read, and the outcome.
#[derive(Drop)]
pub struct FileDigest {
    pub name: FileName,
    pub found: Result<Digested, AllocError>,
}

/// Reads the files of these names, each in a thread if one is free, and gives the outcomes, the last name first.
pub fn digest_ahead<R: Threads + Sync, S: SharedSource>(
    rt: &R,
    alloc: Global,
    names: &[FileName],
    source: &S,
) -> Result<Vec<FileDigest>, AllocError>
    ensures { IfOk result (λ ahead. DigestsEach (standing S.answers) (standing S.fails) source.now ahead.items) }
{
    let names = dealt(alloc, names)?;
    let mut ahead = digest_all(rt, alloc, &names, source)?;
    last_first(&mut ahead);
    Ok(ahead)
}

/// Sorts outcomes by name, descending.
fn last_first(ahead: &mut Vec<FileDigest>)
    ensures { IsPermutation ahead.old.items ahead.new.items }
{
    ahead.sort_unstable_by_key(|read: &FileDigest| -> Reverse<FileName> { Reverse(read.name) });
}

/// The outcomes of reading these names, in their order.
fn digest_all<R: Threads + Sync, S: SharedSource>(
    rt: &R,
    alloc: Global,
    names: &[FileName],
    source: &S,
) -> Result<Vec<FileDigest>, AllocError>
    ensures { IfOk result (λ ahead. DigestsEach (standing S.answers) (standing S.fails) source.now ahead.items) }
{
    names
        .par_iter()
        // each file is worth a thread
        .with_min_len(1)
        .map(
            |name: &FileName| -> FileDigest
                ensures { DigestsName (standing S.answers) (standing S.fails) source.entry.now result }
            { digest_named(source, *name) },
        )
        .collect(rt, alloc)
}

/// The outcome of reading the file of this name.
fn digest_named<S: SharedSource>(source: &S, name: FileName) -> FileDigest
    ensures { DigestsName (standing S.answers) (standing S.fails) source.now result }
{
    let found = digest_file(source, name);
    FileDigest { name, found }
}

/// The outcome for the file of this name: the last of those that were read ahead, if it is of this name. If not, the file is
/// read.
pub fn take_ahead<S: SharedSource>(
    ahead: &mut Vec<FileDigest>,
    source: &S,
    name: FileName,
) -> Result<Digested, AllocError>
    requires { DigestsEach (standing S.answers) (standing S.fails) source.now ahead.old.items }
    ensures found { IfOk result (λ found. DigestsFile (standing S.answers) (standing S.fails) source.now name found source.now) }
    ensures rest { DigestsEach (standing S.answers) (standing S.fails) source.now ahead.new.items }
{
    match ahead.pop() {
        Some(read) if read.name == name => read.found,
        _ => digest_file(source, name),
    }
}
