//! The files of a store in memory.
ghost use Rattle.std.specs.Prelude.{◌≡◌, IfOk, IfErr};
ghost use Rattle.cs_store.specs.FileSet.{contents_of};
ghost use Rattle.cs_store.specs.declared.fault.StoreFault.{StoreFault};

use crate::places::copy;
use cs_parallel_io::SharedSource;
use cs_schema::FileName;
use cs_store::{FileSet, StoreFault};
use std::alloc::Global;

/// The files of a store in memory, which are only read.
#[derive(Drop)]
pub struct MemoryFiles {
    pub files: FileSet,
    alloc: Global,
}

impl MemoryFiles {
    /// These files.
    pub fn new(alloc: Global, files: FileSet) -> Self
        ensures { result.files ≡ files }
    {
        Self { files, alloc }
    }
}

impl SharedSource for MemoryFiles {
    ghost answers = { λ s name file. file ≡ contents_of s.files name };

    ghost fails = { λ s name fault. fault ≡ StoreFault.Memory };

    fn read_shared(&self, name: FileName) -> Result<Option<Vec<u8>>, StoreFault> {
        match self.files.get(name) {
            Some(bytes) => match copy(self.alloc, bytes) {
                Ok(copy) => Ok(Some(copy)),
                Err(fault) => Err(fault),
            },
            None => Ok(None),
        }
    }
}
