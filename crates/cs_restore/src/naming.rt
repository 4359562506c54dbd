//! The names of a file set.
ghost use Rattle.std.specs.Prelude.{◌≡◌, [], ◌∷◌, ◌++◌, map, IfOk, ⊤};
ghost use Rattle.std.specs.FinMap.{entries};

use cs_schema::FileName;
use cs_store::{FileSet, Sink, StoreFault, save};
use std::alloc::{AllocError, Global};

/// A sink that keeps only the names.
#[derive(Drop)]
struct NameList {
    names: Vec<FileName>,
}

impl Sink for NameList {
    ghost takes = { λ s name bytes t. t.names.items ≡ s.names.items ++ name ∷ [] };

    ghost marks = { λ s files t. t.names.items ≡ s.names.items };

    ghost refuses = { λ s at fault t. ⊤ };

    ghost fault_count = { λ s. 0 };

    fn put(&mut self, name: FileName, _bytes: &[u8]) -> Result<(), StoreFault> {
        match self.names.push(name) {
            Ok(()) => Ok(()),
            Err(_) => Err(StoreFault::Memory),
        }
    }

    fn mark(&mut self, _files: u64) -> Result<(), StoreFault> {
        Ok(())
    }

    fn faults(&self) -> u64 {
        0
    }
}

/// The names of the files, ascending.
pub fn names_of(alloc: Global, files: &FileSet) -> Result<Vec<FileName>, AllocError>
    ensures { IfOk result (λ names. names.items ≡ map (λ file. file.0) (entries files.now)) }
{
    let mut list = NameList {
        names: Vec::new(alloc),
    };
    match save(files, &mut list) {
        Ok(()) => Ok(list.names),
        Err(_) => Err(AllocError),
    }
}
