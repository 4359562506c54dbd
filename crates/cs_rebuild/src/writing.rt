//! Writing the files that a loss took.
ghost use Rattle.std.specs.Prelude.{◌≡◌, true, false, IfOk, IfErr};
ghost use Rattle.cs_schema.specs.declared.file_name.FileName.{FileName as NameData};
ghost use Rattle.cs_store.specs.FileSet.{contents_of};
ghost use Rattle.cs_store.specs.declared.fault.Fault.{Fault as FaultData};
ghost use Rattle.cs_rebuild.specs.OnStore.{IsSound, written_on};
ghost use Rattle.cs_rebuild.specs.FilesToWrite.{AreMade, IsFileOf, all_files, files_to_write, is_written};

use crate::file_bytes::file_bytes;
use crate::files_to_write::files_to_write;
use crate::ordered_store::OrderedStore;
use crate::run::Run;
use crate::sound_store::SoundStore;
use crate::thresholds::LEAST_ENTRIES;
use cs_board::Gate;
use cs_schema::FileName;
use cs_store::{Fault, FileSet};
use rayon::prelude::*;
use std::alloc::{AllocError, Global};
use std::marker::Sync;
use std::thread::{Threads, join_mut};

/// The minimum number of entries that one thread makes. If there are as many join indexes as workers, one thread makes
/// all entries of each.
fn least_entries(workers: u32, joins: usize) -> usize {
    if joins < workers as usize {
        LEAST_ENTRIES
    } else {
        usize::MAX
    }
}

/// The join indexes that a recovery writes, or the other files, made in parallel: hashing a file is sequential, and most
/// of the work.
fn make_files<R: Threads + Sync, G: Gate + Sync>(
    run: &Run<'_, R, G>,
    store: &OrderedStore<'_>,
    joins: bool,
) -> Result<Vec<(FileName, Vec<u8>)>, AllocError>
    requires { IsSound store.now }
    ensures { IfOk result (λ made. AreMade store.now (files_to_write store.now.catalog.now store.now.loss joins) made.items) }
{
    let names = files_to_write(run.alloc, store.catalog, store.loss, joins)?;
    let least = least_entries(run.workers, names.len());
    names
        .into_par_iter()
        // each file is worth a thread
        .with_min_len(1)
        .map(
            |name: FileName| -> Result<(FileName, Vec<u8>), AllocError>
                requires written { is_written store.now.catalog.now store.now.loss name ≡ true }
                requires sound { IsSound store.now }
                ensures { IfOk result (IsFileOf store.entry.now name) }
            { Ok((name, file_bytes(run, store, name, least)?)) },
        )
        .collect::<Result<Vec<(FileName, Vec<u8>)>, AllocError>>(run.rt, run.alloc)?
}

/// All files that a recovery writes, the join indexes in parallel with the others. In one list the segments would fall
/// to few threads, since each thread takes neighbours.
fn make_all<R: Threads + Sync, G: Gate + Sync>(
    run: &Run<'_, R, G>,
    store: &OrderedStore<'_>,
) -> Result<Vec<(FileName, Vec<u8>)>, AllocError>
    requires { IsSound store.now }
    ensures { IfOk result (λ made. AreMade store.now (all_files store.now.catalog.now store.now.loss) made.items) }
{
    // `join` guarantees nothing for a closure over a struct of references
    let (joins, others) = join_mut(
        run.rt,
        &mut || -> Result<Vec<(FileName, Vec<u8>)>, AllocError>
            requires { IsSound store.now }
            ensures { IfOk result (λ made. AreMade store.entry.now (files_to_write store.entry.now.catalog.now store.entry.now.loss true) made.items) }
        { make_files(run, store, true) },
        &mut || -> Result<Vec<(FileName, Vec<u8>)>, AllocError>
            requires { IsSound store.now }
            ensures { IfOk result (λ made. AreMade store.entry.now (files_to_write store.entry.now.catalog.now store.entry.now.loss false) made.items) }
        { make_files(run, store, false) },
    );
    let mut made = others?;
    let mut joins = joins?;
    made.append(&mut joins)?;
    Ok(made)
}

/// The set of all files that a recovery writes.
fn collect_files(
    alloc: Global,
    store: &OrderedStore<'_>,
    made: Vec<(FileName, Vec<u8>)>,
) -> Result<FileSet, AllocError>
    requires { AreMade store.now (all_files store.now.catalog.now store.now.loss) made.items }
    ensures { IfOk result (λ out. (n : NameData) → contents_of out n ≡ written_on store.now n) }
{
    // for its clause on the targets of join indexes
    let _rules = store.catalog.projection_count();
    let mut made = made;
    let mut files = FileSet::new(alloc)?;
    while let Some((name, bytes)) = made.pop() {
        files.put(name, bytes)?;
    }
    Ok(files)
}

/// The files that a recovery writes. Fails only if memory is refused.
pub fn write_files<R: Threads + Sync, G: Gate + Sync>(
    run: &Run<'_, R, G>,
    store: &SoundStore<'_>,
) -> Result<FileSet, Fault>
    ensures ok { IfOk result (λ out. (n : NameData) → contents_of out n ≡ written_on store.now n) }
    ensures err { IfErr result (λ fault. fault ≡ FaultData.Memory) }
{
    let store = store.ordered();
    let made = match make_all(run, store) {
        Ok(made) => made,
        Err(_) => return Err(Fault::Memory),
    };
    match collect_files(run.alloc, store, made) {
        Ok(files) => Ok(files),
        Err(_) => Err(Fault::Memory),
    }
}
