//! A sink that notes what it takes, and a writer that fails at some files.
ghost use Rattle.std.specs.Prelude.{◌≡◌, ◌≤◌, ⊤, IsErrOf};
ghost use Rattle.cs_store.specs.Fault.{CountsFault};

use cs_parallel_io::{BatchSink, FileWriter};
use cs_schema::FileName;
use cs_store::{Sink, StoreFault};
use std::alloc::Global;
use std::cell::RefCell;
use std::rc::Rc;

/// A writer that fails at the files of one projection's segments from a number on.
#[derive(Drop)]
pub struct Failing {
    pub from: u16,
}

impl FileWriter for Failing {
    fn write(&self, name: FileName, _bytes: &[u8]) -> Result<(), StoreFault> {
        match name {
            FileName::Seg { s, .. } if s >= self.from => Err(StoreFault::Device),
            _ => Ok(()),
        }
    }
}

/// What a sink took: the lengths of the files, in the order of the puts, and the mark.
#[derive(Drop)]
pub struct Noted {
    pub lengths: Vec<usize>,
    pub mark: Option<u64>,
}

/// A sink that notes what it takes.
#[derive(Drop)]
pub struct Noting {
    pub writer: Option<Failing>,
    pub noted: Rc<RefCell<Noted>>,
    faults: u64,
}

impl Noting {
    /// One that has taken nothing, with this writer.
    pub fn new(writer: Option<Failing>, noted: Rc<RefCell<Noted>>) -> Self {
        Self {
            writer,
            noted,
            faults: 0,
        }
    }
}

impl Sink for Noting {
    ghost takes = { λ s name bytes t. ⊤ };

    ghost marks = { λ s files t. ⊤ };

    ghost refuses = { λ s at fault t. ⊤ };

    ghost fault_count = { λ s. s.faults };

    fn put(&mut self, _name: FileName, bytes: &[u8]) -> Result<(), StoreFault> {
        match self.noted.try_borrow_mut() {
            Ok(mut noted) => match noted.lengths.push(bytes.len()) {
                Ok(()) => Ok(()),
                Err(_) => Err(StoreFault::Memory),
            },
            Err(_) => Err(StoreFault::Memory),
        }
    }

    fn mark(&mut self, files: u64) -> Result<(), StoreFault> {
        match self.noted.try_borrow_mut() {
            Ok(mut noted) => {
                noted.mark = Some(files);
                Ok(())
            }
            Err(_) => Err(StoreFault::Memory),
        }
    }

    fn faults(&self) -> u64 {
        self.faults
    }
}

impl BatchSink for Noting {
    type Writer = Failing;

    fn writer(&self) -> Option<&Failing> {
        match &self.writer {
            Some(writer) => Some(writer),
            None => None,
        }
    }

    fn put_written(
        &mut self,
        name: FileName,
        bytes: &[u8],
        written: Result<(), StoreFault>,
    ) -> Result<(), StoreFault> {
        if let Err(StoreFault::Device) = written {
            self.faults = self.faults.saturating_add(1);
            return Err(StoreFault::Device);
        }
        self.put(name, bytes)
    }
}
