//! A store in memory that many threads can read at once.
ghost use Rattle.std.specs.Prelude.{◌≡◌, ◌≤◌, ⊤, IsErrOf};
ghost use Rattle.cs_store.specs.Fault.{CountsFault};

use cs_parallel_io::SharedSource;
use cs_schema::FileName;
use cs_store::{FileSet, Source, StoreFault};
use std::alloc::Global;

/// A store's files, of which the read of one may fail.
#[derive(Drop)]
pub struct MemoryStore {
    files: FileSet,
    failure: Option<(FileName, StoreFault)>,
    faults: u64,
    alloc: Global,
}

impl MemoryStore {
    /// A store of these files, and the name of one whose read fails, with why.
    pub fn new(alloc: Global, files: FileSet, failure: Option<(FileName, StoreFault)>) -> Self {
        Self {
            files,
            failure,
            faults: 0,
            alloc,
        }
    }
}

impl SharedSource for MemoryStore {
    ghost answers = { λ s name file. ⊤ };

    ghost fails = { λ s name fault. ⊤ };

    fn read_shared(&self, name: FileName) -> Result<Option<Vec<u8>>, StoreFault> {
        match self.failure {
            Some((failing, fault)) if failing == name => return Err(fault),
            _ => {}
        }
        let Some(bytes) = self.files.get(name) else {
            return Ok(None);
        };
        match Vec::from_slice(self.alloc, bytes) {
            Ok(copy) => Ok(Some(copy)),
            Err(_) => Err(StoreFault::Memory),
        }
    }
}

impl Source for MemoryStore {
    ghost gives = { λ s name file t. ⊤ };

    ghost refuses = { λ s name fault t. ⊤ };

    ghost fault_count = { λ s. s.faults };

    fn read(&mut self, name: FileName) -> Result<Option<Vec<u8>>, StoreFault> {
        let read = self.read_shared(name);
        if let Err(StoreFault::Device) = read {
            self.faults = self.faults.saturating_add(1);
        }
        read
    }

    fn faults(&self) -> u64 {
        self.faults
    }
}
