//! A source in memory.
ghost use Rattle.std.specs.Prelude.{◌≡◌};

use super::Failure;
use crate::{FileSet, Source, StoreFault};
use cs_schema::FileName;
use std::alloc::Global;

/// A source of the files of a file set.
#[derive(Drop)]
pub struct MemorySource {
    pub files: FileSet,
    pub failure: Option<Failure>,
    pub faults: u64,
    alloc: Global,
}

impl MemorySource {
    /// A source of these files.
    pub fn new(alloc: Global, files: FileSet, failure: Option<Failure>) -> Self
        ensures files { result.files ≡ files }
        ensures failure { result.failure ≡ failure }
        ensures faults { result.faults ≡ 0 }
    {
        Self {
            files,
            failure,
            faults: 0,
            alloc,
        }
    }
}

impl Source for MemorySource {
    ghost use Rattle.cs_store.specs.Memory.{GivesHeld, RefusesRead};

    ghost gives = { GivesHeld };

    ghost refuses = { RefusesRead };

    ghost fault_count = { λ s. s.faults };

    fn read(&mut self, name: FileName) -> Result<Option<Vec<u8>>, StoreFault> {
        if let Some(fault) = Failure::strike(&mut self.failure, &mut self.faults) {
            return Err(fault);
        }
        match self.files.get(name) {
            Some(bytes) => match Vec::from_slice(self.alloc, bytes) {
                Ok(copy) => Ok(Some(copy)),
                Err(_) => Err(StoreFault::Memory),
            },
            None => Ok(None),
        }
    }

    fn faults(&self) -> u64 {
        self.faults
    }
}
