//! A store in one folder, which many threads can read at once.
ghost use Rattle.std.specs.Prelude.{◌≡◌, ◌<◌, ◌≤◌, ◌^◌, ⊤, IfOk, IfSome, IsErrOf, vec_len};
ghost use Rattle.cs_store.specs.Fault.{CountsFault};

use crate::limits::{CATALOG_LIMIT, FileLimits};
use crate::paths::{file_in, no_memory, path_in};
use crate::reading::read_file;
use cs_parallel_io::SharedSource;
use cs_schema::FileName;
use cs_store::{Source, StoreFault};
use std::alloc::{AllocError, Global};
use std::marker::Sync;
use std::rt::Files;

/// A store in one folder, with the number of faults that were met up to its last read.
#[derive(Drop)]
pub struct StoreFolder<R> {
    alloc: Global,
    rt: R,
    path: String,
    limits: FileLimits,
    faults: u64,
}

impl<R> StoreFolder<R> {
    /// The store at this path, whose files have at most so many bytes; no fault was met. Nothing is read.
    pub fn new(alloc: Global, rt: R, path: &str, limits: FileLimits) -> Result<Self, AllocError>
    where
        R: Drop,
    {
        Ok(Self {
            alloc,
            rt,
            path: String::from_str(alloc, path)?,
            limits,
            faults: 0,
        })
    }
}

impl<R: Files> StoreFolder<R> {
    /// The bytes of the catalog, or `None` where there is none.
    pub fn catalog(&mut self) -> Result<Option<Vec<u8>>, StoreFault>
        ensures { IfOk result (λ file. IfSome file (λ bytes. vec_len bytes ≤ CATALOG_LIMIT)) }
    {
        let path = path_in(self.alloc, self.path.as_str(), "catalog.toml").map_err(no_memory)?;
        self.read_path(path.as_str(), CATALOG_LIMIT)
    }

    /// The file's bytes, or `None` where there is no such file.
    fn read_path(&mut self, path: &str, limit: u64) -> Result<Option<Vec<u8>>, StoreFault>
        requires { limit < 2 ^ 63 }
        ensures bounded { IfOk result (λ file. IfSome file (λ bytes. vec_len bytes ≤ limit)) }
        ensures device { IsErrOf result StoreFault.Device → CountsFault self.old.faults self.new.faults }
        ensures counted { self.old.faults ≤ self.new.faults }
    {
        let read = read_file(self.alloc, &self.rt, path, limit);
        if let Err(StoreFault::Device) = read {
            self.faults = self.faults.saturating_add(1);
        }
        read
    }
}

impl<R: Files> Source for StoreFolder<R> {
    ghost gives = { λ s name file t. ⊤ };

    ghost refuses = { λ s name fault t. ⊤ };

    ghost fault_count = { λ s. s.faults };

    fn read(&mut self, name: FileName) -> Result<Option<Vec<u8>>, StoreFault> {
        let path = file_in(self.alloc, self.path.as_str(), name).map_err(no_memory)?;
        let limit = self.limits.limit_of(name);
        self.read_path(path.as_str(), limit)
    }

    fn faults(&self) -> u64 {
        self.faults
    }
}

impl<R: Files + Sync> SharedSource for StoreFolder<R> {
    ghost answers = { λ s name file. ⊤ };

    ghost fails = { λ s name fault. ⊤ };

    fn read_shared(&self, name: FileName) -> Result<Option<Vec<u8>>, StoreFault> {
        let path = file_in(self.alloc, self.path.as_str(), name).map_err(no_memory)?;
        read_file(
            self.alloc,
            &self.rt,
            path.as_str(),
            self.limits.limit_of(name),
        )
    }
}
