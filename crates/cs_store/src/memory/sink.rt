//! A sink in memory.
ghost use Rattle.std.specs.Prelude.{◌≡◌, None};

use super::Failure;
use crate::{FileSet, Sink, StoreFault};
use cs_schema::FileName;
use std::alloc::Global;

/// A sink that keeps the files and the mark that it was given.
#[derive(Drop)]
pub struct MemorySink {
    pub files: FileSet,
    pub mark: Option<u64>,
    pub failure: Option<Failure>,
    pub faults: u64,
    alloc: Global,
}

impl MemorySink {
    /// A sink with these files and no mark.
    pub fn new(alloc: Global, files: FileSet, failure: Option<Failure>) -> Self
        ensures files { result.files ≡ files }
        ensures unmarked { result.mark ≡ None }
        ensures failure { result.failure ≡ failure }
        ensures faults { result.faults ≡ 0 }
    {
        Self {
            files,
            mark: None,
            failure,
            faults: 0,
            alloc,
        }
    }
}

impl Sink for MemorySink {
    ghost use Rattle.cs_store.specs.Memory.{TakesFile, SetsMark, RefusesCall};

    ghost takes = { TakesFile };

    ghost marks = { SetsMark };

    ghost refuses = { RefusesCall };

    ghost fault_count = { λ s. s.faults };

    fn put(&mut self, name: FileName, bytes: &[u8]) -> Result<(), StoreFault> {
        if let Some(fault) = Failure::strike(&mut self.failure, &mut self.faults) {
            return Err(fault);
        }
        let Ok(copy) = Vec::from_slice(self.alloc, bytes) else {
            return Err(StoreFault::Memory);
        };
        match self.files.put(name, copy) {
            Ok(()) => Ok(()),
            Err(_) => Err(StoreFault::Memory),
        }
    }

    fn mark(&mut self, files: u64) -> Result<(), StoreFault> {
        if let Some(fault) = Failure::strike(&mut self.failure, &mut self.faults) {
            return Err(fault);
        }
        self.mark = Some(files);
        Ok(())
    }

    fn faults(&self) -> u64 {
        self.faults
    }
}
