//! A source whose files were read ahead, in parallel.
ghost use Rattle.std.specs.Prelude.{◌≡◌, IfOk};
ghost use Rattle.std.specs.List.Sorted.{IsPermutation};
ghost use Rattle.cs_parallel_io.specs.Ahead.{Says, SaysAll};

use crate::dealing::dealt;
use crate::shared::SharedSource;
use cs_schema::{Catalog, FileName, Loss};
use cs_store::{Source, StoreFault};
use rayon::prelude::*;
use std::alloc::{AllocError, Global};
use std::cmp::Reverse;
use std::marker::Sync;
use std::thread::Threads;

/// The result of reading a file.
#[derive(Drop)]
struct Answer {
    name: FileName,
    result: Result<Option<Vec<u8>>, StoreFault>,
}

/// A source whose files were read ahead. A file that was not is read when it is asked for.
#[derive(Drop)]
pub struct ReadAhead<'a, S> {
    source: &'a S,
    /// The results, the next name last.
    reads: Vec<Answer>,
    faults: u64,
}

/// Reads the files that survive the loss, each in a thread if one is free.
pub fn read_ahead<'a, R: Threads + Sync, S: SharedSource>(
    rt: &R,
    alloc: Global,
    catalog: &Catalog,
    loss: Loss,
    source: &'a S,
) -> Result<ReadAhead<'a, S>, AllocError>
    ensures behind { IfOk result (λ ahead. ahead.source.now ≡ source.now) }
    ensures said { IfOk result (λ ahead. SaysAll S.answers S.fails source.now ahead.reads.items) }
{
    let names = dealt(alloc, &catalog.surviving(alloc, loss)?)?;
    let mut reads = read_all(rt, alloc, &names, source)?;
    last_first(&mut reads);
    Ok(ReadAhead {
        source,
        reads,
        faults: 0,
    })
}

/// Sorts the results by name, descending.
fn last_first(reads: &mut Vec<Answer>)
    ensures { IsPermutation reads.old.items reads.new.items }
{
    reads.sort_unstable_by_key(|read: &Answer| -> Reverse<FileName> { Reverse(read.name) });
}

/// The results of reading these names, in their order.
fn read_all<R: Threads + Sync, S: SharedSource>(
    rt: &R,
    alloc: Global,
    names: &[FileName],
    source: &S,
) -> Result<Vec<Answer>, AllocError>
    ensures { IfOk result (λ reads. SaysAll S.answers S.fails source.now reads.items) }
{
    names
        .par_iter()
        // each file is worth a thread
        .with_min_len(1)
        .map(
            |name: &FileName| -> Answer
                ensures { Says S.answers S.fails source.entry.now result.name result.result }
            { ask(source, *name) },
        )
        .collect(rt, alloc)
}

/// The result of reading the file with this name.
fn ask<S: SharedSource>(source: &S, name: FileName) -> Answer
    ensures { Says S.answers S.fails source.now result.name result.result }
{
    let result = source.read_shared(name);
    Answer { name, result }
}

impl<'a, S: SharedSource> Source for ReadAhead<'a, S> {
    ghost gives = { λ s name file t. SaysAll S.answers S.fails s.source.now s.reads.items
        → S.answers s.source.now name file × (t.source.now ≡ s.source.now) × SaysAll S.answers S.fails t.source.now t.reads.items };

    ghost refuses = { λ s name fault t. SaysAll S.answers S.fails s.source.now s.reads.items
        → S.fails s.source.now name fault × (t.source.now ≡ s.source.now) × SaysAll S.answers S.fails t.source.now t.reads.items };

    ghost fault_count = { λ s. s.faults };

    fn read(&mut self, name: FileName) -> Result<Option<Vec<u8>>, StoreFault> {
        let read = match self.reads.pop() {
            Some(Answer { name: of, result }) if of == name => result,
            _ => self.source.read_shared(name),
        };
        if let Err(StoreFault::Device) = read {
            self.faults = self.faults.saturating_add(1);
        }
        read
    }

    fn faults(&self) -> u64 {
        self.faults
    }
}
