//! Distribution of files over batches of about the same length. Each batch is hashed by one thread.
ghost use Rattle.std.specs.Prelude.{◌≡◌, ◌<◌, ◌≤◌, ℕ, List, Some, true, IsTrue, IfOk, length, slice_index_or};
ghost use Rattle.std.specs.Borrow.{Bor};
ghost use Rattle.std.specs.List.{slice_get};
ghost use Rattle.cs_schema.specs.Lists.{IsIn};
ghost use Rattle.cs_segment.specs.Bodies.{IsSealed};

use cs_segment::seal::are_sealed;
use rayon::prelude::*;
use std::alloc::{AllocError, Global};
use std::marker::Sync;
use std::thread::Threads;

/// The index of the smallest number.
fn least(numbers: &[usize]) -> usize
    requires { 0 < length numbers.now }
    ensures { result < length numbers.now }
{
    let mut found = 0;
    for i in 1..numbers.len() {
        if numbers[i] < numbers[found] {
            found = i;
        }
    }
    found
}

/// The batch of each file: the shortest so far of `count` batches.
fn batches_of(alloc: Global, files: &[&[u8]], count: usize) -> Result<Vec<usize>, AllocError>
    requires { 0 < count }
    ensures each { IfOk result (λ batches. length batches.items ≡ length files.now) }
    ensures below { IfOk result (λ batches. (k : ℕ) → k < length files.now → slice_index_or batches.items k 0 < count) }
{
    let mut lengths: Vec<usize> = Vec::new(alloc);
    lengths.resize(count, 0)?;
    let mut batches = Vec::with_capacity(alloc, files.len())?;
    for file in files {
        let batch = least(&lengths);
        lengths[batch] = lengths[batch].wrapping_add(file.len());
        batches.push(batch)?;
    }
    Ok(batches)
}

/// The files of one batch, in order.
fn files_in<'a>(
    alloc: Global,
    files: &[&'a [u8]],
    batches: &[usize],
    batch: usize,
) -> Result<Vec<&'a [u8]>, AllocError>
    requires { length batches.now ≡ length files.now }
    ensures { IfOk result (λ own. (k : ℕ) (f : Bor (List ℕ)) → slice_get files.now k ≡ Some f
        → slice_index_or batches.now k 0 ≡ batch → IsIn f own.items) }
{
    let mut own = Vec::new(alloc);
    for i in 0..files.len() {
        if batches[i] != batch {
            continue;
        }
        own.push(files[i])?;
    }
    Ok(own)
}

/// Whether each file of one batch ends in the digest of its body. False if memory is refused.
fn has_sealed(alloc: Global, files: &[&[u8]], batches: &[usize], batch: usize) -> bool
    requires { length batches.now ≡ length files.now }
    ensures { IsTrue result → (k : ℕ) (f : Bor (List ℕ)) → slice_get files.now k ≡ Some f
        → slice_index_or batches.now k 0 ≡ batch → IsSealed f.now true }
{
    match files_in(alloc, files, batches, batch) {
        Ok(own) => are_sealed(alloc, own.as_slice()),
        Err(_) => false,
    }
}

/// Whether each of these files ends in the digest of its body. They are hashed in `at_once` batches in parallel, which
/// is fastest if the longest files come first. False if memory is refused.
pub fn are_sealed_at_once<R: Threads + Sync>(
    rt: &R,
    alloc: Global,
    files: &[&[u8]],
    at_once: usize,
) -> bool
    requires { 0 < at_once }
    ensures { IsTrue result → (f : Bor (List ℕ)) → IsIn f files.now → IsSealed f.now true }
{
    let Ok(list) = batches_of(alloc, files, at_once) else {
        return false;
    };
    let batches = list.as_slice();
    (0..at_once)
        .into_par_iter()
        // each batch is worth a thread
        .with_min_len(1)
        .all(
            rt,
            |batch: usize| -> bool
                requires { length batches.now ≡ length files.now }
                ensures { IsTrue result → (k : ℕ) (f : Bor (List ℕ)) → slice_get files.entry.now k ≡ Some f
                    → slice_index_or batches.entry.now k 0 ≡ batch → IsSealed f.now true }
            { has_sealed(alloc, files, batches, batch) },
        )
}
