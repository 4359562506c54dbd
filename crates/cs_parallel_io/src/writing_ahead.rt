//! Saving a file set whose files are written in parallel.
ghost use Rattle.std.specs.Prelude.{◌≡◌, ◌<◌, OnOk, IfErr};
ghost use Rattle.std.specs.FinMap.{entries, len};
ghost use Rattle.cs_store.specs.Save.{Saves, StopsSaving};

use crate::batch_sink::{BatchSink, FileWriter};
use cs_schema::FileName;
use cs_store::{Fault, FileSet, Sink, StoreFault, save};
use rayon::prelude::*;
use std::alloc::{AllocError, Global};
use std::marker::Sync;
use std::thread::Threads;

/// A sink whose files were written ahead. A file that was not is written when it is put.
#[derive(Drop)]
struct Ahead<K> {
    sink: K,
    /// The writer's answer for each file, the next one last.
    written: Vec<Result<(), StoreFault>>,
}

/// The writer's answer for each file, in the order of names.
fn write_each<R: Threads + Sync, W: FileWriter>(
    rt: &R,
    alloc: Global,
    files: &FileSet,
    writer: &W,
) -> Result<Vec<Result<(), StoreFault>>, AllocError> {
    (0..files.len())
        .into_par_iter()
        // each file is worth a thread
        .with_min_len(1)
        .map(
            |at: usize| -> Result<(), StoreFault>
                requires { at < len files.now }
            {
                let (name, bytes) = files.at(at);
                writer.write(name, bytes)
            },
        )
        .collect(rt, alloc)
}

/// The writer's answer for each file, the first one last, if the sink has a writer and memory is not refused.
fn write_ahead<R: Threads + Sync, K: BatchSink>(
    rt: &R,
    alloc: Global,
    files: &FileSet,
    sink: &K,
) -> Vec<Result<(), StoreFault>> {
    let Some(writer) = sink.writer() else {
        return Vec::new(alloc);
    };
    match write_each(rt, alloc, files, writer) {
        Ok(written) => {
            let mut written = written;
            written.reverse();
            written
        }
        Err(_) => Vec::new(alloc),
    }
}

impl<K: BatchSink> Sink for Ahead<K> {
    ghost takes = { λ s name bytes t. K.takes s.sink name bytes t.sink };

    ghost marks = { λ s files t. K.marks s.sink files t.sink };

    ghost refuses = { λ s at fault t. K.refuses s.sink at fault t.sink };

    ghost fault_count = { λ s. K.fault_count s.sink };

    fn put(&mut self, name: FileName, bytes: &[u8]) -> Result<(), StoreFault> {
        match self.written.pop() {
            Some(written) => self.sink.put_written(name, bytes, written),
            None => self.sink.put(name, bytes),
        }
    }

    fn mark(&mut self, files: u64) -> Result<(), StoreFault> {
        self.sink.mark(files)
    }

    fn faults(&self) -> u64 {
        self.sink.faults()
    }
}

/// Saves files in parallel. After a failure, more than one file may be there in part, and more files than those before
/// the one that is named.
pub fn save_batch<R: Threads + Sync, K: BatchSink + Drop>(
    rt: &R,
    alloc: Global,
    files: &FileSet,
    sink: K,
) -> Result<(), Fault>
    ensures ok { OnOk result ((t : K) × Saves K.takes K.marks (entries files.now) sink t) }
    ensures err { IfErr result (λ fault. (t : K) × StopsSaving K.takes K.refuses (entries files.now) sink fault t) }
{
    let written = write_ahead(rt, alloc, files, &sink);
    let mut ahead = Ahead { sink, written };
    save(files, &mut ahead)
}
