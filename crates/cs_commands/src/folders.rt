//! Folders of the system as places. Their contracts say nothing of what folders hold.
ghost use Rattle.std.specs.Prelude.{⊤};

use crate::places::Places;
use cs_board::OpenGate;
use cs_folders::{FileLimits, OutputFolder, StoreFolder};
use cs_store::StoreFault;
use std::alloc::Global;
use std::marker::Sync;
use std::rt::Files;

/// The folders of the system, with the number of faults in finding and making them.
#[derive(Drop)]
pub struct Folders<R> {
    alloc: Global,
    rt: R,
    watch: OpenGate,
    faults: u64,
}

impl<R> Folders<R> {
    /// The system's folders; no fault has occurred.
    pub fn new(alloc: Global, rt: R) -> Self {
        Self {
            alloc,
            rt,
            watch: OpenGate,
            faults: 0,
        }
    }
}

impl<R: Files + Copy + Sync> Places for Folders<R> {
    type Store = StoreFolder<R>;

    type Output = OutputFolder<R>;

    type Watch = OpenGate;

    ghost finds = { λ s path bytes store t. ⊤ };

    ghost makes = { λ s path output t. ⊤ };

    ghost misses = { λ s path fault t. ⊤ };

    ghost denies = { λ s path fault t. ⊤ };

    ghost fault_count = { λ s. s.faults };

    fn store(&mut self, path: &str) -> Result<(Vec<u8>, StoreFolder<R>), StoreFault> {
        let Ok(mut store) = StoreFolder::new(self.alloc, self.rt, path, FileLimits::Fixed) else {
            return Err(StoreFault::Memory);
        };
        match store.catalog() {
            Ok(Some(catalog)) => Ok((catalog, store)),
            Ok(None) | Err(StoreFault::Device) => {
                self.faults = self.faults.saturating_add(1);
                Err(StoreFault::Device)
            }
            Err(StoreFault::Memory) => Err(StoreFault::Memory),
        }
    }

    fn output(&mut self, path: &str) -> Result<OutputFolder<R>, StoreFault> {
        match OutputFolder::make(self.alloc, self.rt, path) {
            Ok(output) => Ok(output),
            Err(StoreFault::Device) => {
                self.faults = self.faults.saturating_add(1);
                Err(StoreFault::Device)
            }
            Err(StoreFault::Memory) => Err(StoreFault::Memory),
        }
    }

    fn watch(&self) -> &OpenGate {
        &self.watch
    }

    fn faults(&self) -> u64 {
        self.faults
    }
}
