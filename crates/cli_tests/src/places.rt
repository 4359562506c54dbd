//! Places in memory, for one store and one output.
ghost use Rattle.std.specs.Prelude.{◌≡◌, ⊤};

use crate::store::MemoryStore;
use crate::stores::Stored;
use crate::watch::Watch;
use cs_commands::Places;
use cs_parallel_io::{BatchSink, NoWriter};
use cs_schema::FileName;
use cs_store::memory::{Failure, MemorySink};
use cs_store::{FileSet, Sink, StoreFault};
use std::alloc::Global;
use std::cell::RefCell;
use std::rc::Rc;
use std::test::Fail;
use test_support::file_sets::copy_of;

/// What an output took: the files, and the mark.
#[derive(Drop)]
pub struct Taken {
    pub files: FileSet,
    pub mark: Option<u64>,
}

/// One store, and one output that the tests can look into.
#[derive(Drop)]
pub struct MemoryPlaces {
    pub catalog: Option<Vec<u8>>,
    pub files: FileSet,
    /// The original files.
    pub whole: FileSet,
    /// The path at which the store was asked for, then that of the output.
    pub asked: String,
    pub watch: Watch,
    /// The file whose read fails, and why.
    pub read_failure: Option<(FileName, StoreFault)>,
    pub write_failure: Option<Failure>,
    pub taken: Rc<RefCell<Taken>>,
    pub is_made: bool,
    faults: u64,
    alloc: Global,
}

/// An output that shares with the tests what it took.
#[derive(Drop)]
pub struct SharedOutput {
    sink: MemorySink,
    taken: Rc<RefCell<Taken>>,
    alloc: Global,
}

/// Places with this store, with nothing failing.
pub fn places_of(alloc: Global, stored: &Stored) -> Result<MemoryPlaces, Fail> {
    let taken = Taken {
        files: FileSet::new(alloc)?,
        mark: None,
    };
    Ok(MemoryPlaces {
        catalog: Some(Vec::from_slice(alloc, stored.catalog.as_slice())?),
        files: copy_of(alloc, &stored.files)?,
        whole: copy_of(alloc, &stored.files)?,
        asked: String::new(alloc),
        watch: Watch::new(),
        read_failure: None,
        write_failure: None,
        taken: Rc::new(alloc, RefCell::new(taken))?,
        is_made: false,
        faults: 0,
        alloc,
    })
}

impl Places for MemoryPlaces {
    type Store = MemoryStore;

    type Output = SharedOutput;

    type Watch = Watch;

    ghost finds = { λ s path bytes store t. ⊤ };

    ghost makes = { λ s path output t. ⊤ };

    ghost misses = { λ s path fault t. ⊤ };

    ghost denies = { λ s path fault t. ⊤ };

    ghost fault_count = { λ s. s.faults };

    fn store(&mut self, path: &str) -> Result<(Vec<u8>, MemoryStore), StoreFault> {
        if self.asked.push_str(path).is_err() {
            return Err(StoreFault::Memory);
        }
        let Some(catalog) = &self.catalog else {
            self.faults = self.faults.saturating_add(1);
            return Err(StoreFault::Device);
        };
        let bytes = Vec::from_slice(self.alloc, catalog.as_slice()).map_err(
            |_| StoreFault::Memory,
        )?;
        let files = copy_of(self.alloc, &self.files).map_err(|_| StoreFault::Memory)?;
        Ok((
            bytes,
            MemoryStore::new(self.alloc, files, self.read_failure),
        ))
    }

    fn output(&mut self, path: &str) -> Result<SharedOutput, StoreFault> {
        if self.asked.push_str(" > ").is_err() || self.asked.push_str(path).is_err() {
            return Err(StoreFault::Memory);
        }
        if self.is_made {
            self.faults = self.faults.saturating_add(1);
            return Err(StoreFault::Device);
        }
        self.is_made = true;
        let files = FileSet::new(self.alloc).map_err(|_| StoreFault::Memory)?;
        Ok(SharedOutput {
            sink: MemorySink::new(self.alloc, files, self.write_failure),
            taken: self.taken.clone().map_err(|_| StoreFault::Memory)?,
            alloc: self.alloc,
        })
    }

    fn watch(&self) -> &Watch {
        &self.watch
    }

    fn faults(&self) -> u64 {
        self.faults
    }
}

impl Sink for SharedOutput {
    ghost takes = { λ s name bytes t. ⊤ };

    ghost marks = { λ s files t. ⊤ };

    ghost refuses = { λ s at fault t. ⊤ };

    ghost fault_count = { λ s. s.sink.faults };

    fn put(&mut self, name: FileName, bytes: &[u8]) -> Result<(), StoreFault> {
        self.sink.put(name, bytes)?;
        let Ok(copy) = Vec::from_slice(self.alloc, bytes) else {
            return Err(StoreFault::Memory);
        };
        match self.taken.try_borrow_mut() {
            Ok(mut taken) => match taken.files.put(name, copy) {
                Ok(()) => Ok(()),
                Err(_) => Err(StoreFault::Memory),
            },
            Err(_) => Err(StoreFault::Memory),
        }
    }

    fn mark(&mut self, files: u64) -> Result<(), StoreFault> {
        self.sink.mark(files)?;
        match self.taken.try_borrow_mut() {
            Ok(mut taken) => {
                taken.mark = Some(files);
                Ok(())
            }
            Err(_) => Err(StoreFault::Memory),
        }
    }

    fn faults(&self) -> u64 {
        self.sink.faults()
    }
}

impl BatchSink for SharedOutput {
    type Writer = NoWriter;

    fn writer(&self) -> Option<&NoWriter> {
        None
    }

    fn put_written(
        &mut self,
        name: FileName,
        bytes: &[u8],
        _written: Result<(), StoreFault>,
    ) -> Result<(), StoreFault> {
        self.put(name, bytes)
    }
}
