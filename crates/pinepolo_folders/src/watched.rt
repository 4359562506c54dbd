//! Stores and outputs in folders, of which each file that is begun is told.
ghost use Rattle.std.specs.Prelude.{⊤};

use cs_file_system::{FileStep, StoreFiles};
use cs_folders::StoreFolder;
use cs_parallel_io::{BatchSink, FileWriter, SharedSource};
use cs_schema::FileName;
use cs_sites::SitedSource;
use cs_store::{Sink, StoreFault};
use std::marker::Sync;

/// A store, each file in the folder of its site.
#[derive(Drop)]
pub struct WatchedStore<R> {
    pub rt: R,
    pub source: SitedSource<StoreFolder<R>>,
}

impl<R: StoreFiles + Sync> SharedSource for WatchedStore<R> {
    ghost answers = { λ s name file. ⊤ };

    ghost fails = { λ s name fault. ⊤ };

    fn read_shared(&self, name: FileName) -> Result<Option<Vec<u8>>, StoreFault> {
        let site = self.source.routes.site_of(name);
        self.rt.begins(FileStep::Read, site);
        let read = self.source.read_shared(name);
        if let Ok(Some(bytes)) = &read {
            self.rt.moves(bytes.len() as u64);
        }
        read
    }
}

/// An output into which recovered files are written.
#[derive(Drop)]
pub struct WatchedOutput<R, O> {
    pub rt: R,
    pub output: O,
}

impl<R: StoreFiles, O> WatchedOutput<R, O> {
    /// Tells that a file is begun.
    fn begins(&self) {
        self.rt.begins(FileStep::Write, None);
    }

    /// Tells that a file of these bytes was written.
    fn ends(&self, bytes: &[u8]) {
        self.rt.moves(bytes.len() as u64);
    }
}

impl<R: StoreFiles, O: Sink> Sink for WatchedOutput<R, O> {
    ghost takes = { λ s name bytes t. O.takes s.output name bytes t.output };

    ghost marks = { λ s files t. O.marks s.output files t.output };

    ghost refuses = { λ s at fault t. O.refuses s.output at fault t.output };

    ghost fault_count = { λ s. O.fault_count s.output };

    fn put(&mut self, name: FileName, bytes: &[u8]) -> Result<(), StoreFault> {
        self.begins();
        let written = self.output.put(name, bytes);
        self.ends(bytes);
        written
    }

    fn mark(&mut self, files: u64) -> Result<(), StoreFault> {
        self.output.mark(files)
    }

    fn faults(&self) -> u64 {
        self.output.faults()
    }
}

impl<R: StoreFiles + Sync, O: FileWriter> FileWriter for WatchedOutput<R, O> {
    fn write(&self, name: FileName, bytes: &[u8]) -> Result<(), StoreFault> {
        self.begins();
        let written = self.output.write(name, bytes);
        self.ends(bytes);
        written
    }
}

impl<R: StoreFiles + Sync, O: BatchSink + FileWriter> BatchSink for WatchedOutput<R, O> {
    type Writer = WatchedOutput<R, O>;

    fn writer(&self) -> Option<&WatchedOutput<R, O>> {
        Some(self)
    }

    fn put_written(
        &mut self,
        name: FileName,
        bytes: &[u8],
        written: Result<(), StoreFault>,
    ) -> Result<(), StoreFault> {
        self.output.put_written(name, bytes, written)
    }
}
