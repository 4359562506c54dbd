//! All files of a set but one.
ghost use Rattle.std.specs.Prelude.{◌≡◌, IfOk, IsErrOf, ⊤};
ghost use Rattle.std.specs.FinMap.{empty};
ghost use Rattle.cs_store.specs.FileSet.{contents_of};
ghost use Rattle.cs_shelf.specs.Shelf.{Lacks};

use cs_schema::FileName;
use cs_store::{FileSet, Sink, StoreFault, save};
use std::alloc::Global;

/// A sink that skips one name. Of every other name it keeps the first file.
#[derive(Drop)]
struct Rest {
    files: FileSet,
    gone: FileName,
    alloc: Global,
}

impl Sink for Rest {
    ghost use Rattle.cs_shelf.specs.MemoryRest.{AddsUnlessGone};

    ghost takes = { AddsUnlessGone };

    ghost marks = { λ s files t. t.files ≡ s.files };

    ghost refuses = { λ s at fault t. ⊤ };

    ghost fault_count = { λ s. 0 };

    fn put(&mut self, name: FileName, bytes: &[u8]) -> Result<(), StoreFault> {
        if name == self.gone {
            return Ok(());
        }
        let None = self.files.get(name) else {
            return Ok(());
        };
        let Ok(copy) = Vec::from_slice(self.alloc, bytes) else {
            return Err(StoreFault::Memory);
        };
        match self.files.put(name, copy) {
            Ok(()) => Ok(()),
            Err(_) => Err(StoreFault::Memory),
        }
    }

    fn mark(&mut self, _files: u64) -> Result<(), StoreFault> {
        Ok(())
    }

    fn faults(&self) -> u64 {
        0
    }
}

/// All files but the one of this name.
pub fn without(alloc: Global, files: &FileSet, name: FileName) -> Result<FileSet, StoreFault>
    ensures gone { IfOk result (λ left. Lacks name files.now left) }
    ensures memory { IsErrOf result StoreFault.Device → ⊥ }
{
    let Ok(none) = FileSet::new(alloc) else {
        return Err(StoreFault::Memory);
    };
    let mut rest = Rest {
        files: none,
        gone: name,
        alloc,
    };
    match save(files, &mut rest) {
        Ok(()) => Ok(rest.files),
        Err(_) => Err(StoreFault::Memory),
    }
}
