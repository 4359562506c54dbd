//! Places in memory.
ghost use Rattle.std.specs.Prelude.{◌≡◌, ◌≤◌, Some, IfOk, IfErr, OnOk, IsErrOf};
ghost use Rattle.cs_store.specs.Fault.{CountsFault};
ghost use Rattle.verb_cases.specs.Standing.{Denies, IsSame, MakesOutput, PutsText, is_taken_at};

use crate::files::MemoryFiles;
use crate::outputs::{Marked, MemoryOutput};
use crate::standing::{Standing, copy_files};
use cs_schema::Catalog;
use cs_shelf::Stop;
use cs_store::{FileSet, StoreFault};
use pinepolo_places::Places;
use std::alloc::{AllocError, Global};
use std::cell::RefCell;
use std::collections::BTreeMap;
use std::rc::Rc;

/// Stores and texts in memory, by path.
#[derive(Drop)]
pub struct MemoryPlaces {
    pub stores: BTreeMap<String, Standing>,
    /// Catalogs, tables as CSV, and pictures.
    pub texts: BTreeMap<String, Vec<u8>>,
    /// The path of the store that is taken for a restore.
    pub taken: Option<String>,
    /// Where the next store that is taken stops.
    pub stop: Option<Stop>,
    pub faults: u64,
    marked: Marked,
    pub alloc: Global,
}

impl MemoryPlaces {
    /// Places where nothing stands.
    pub fn new(alloc: Global) -> Result<Self, AllocError> {
        let marked = Rc::new(alloc, RefCell::new(Vec::new(alloc)))?;
        Ok(Self {
            stores: BTreeMap::new(alloc),
            texts: BTreeMap::new(alloc),
            taken: None,
            stop: None,
            faults: 0,
            marked,
            alloc,
        })
    }

    /// Whether something stands at this path.
    pub fn is_taken(&self, path: &str) -> bool
        ensures { result ≡ is_taken_at self.now path.now }
    {
        self.stores.contains_key(path) || self.texts.contains_key(path)
    }

    /// A fault of the device.
    pub fn fault(&mut self) -> StoreFault
        ensures device { result ≡ StoreFault.Device }
        ensures counted { CountsFault self.old.faults self.new.faults }
        ensures more { self.old.faults ≤ self.new.faults }
        ensures same { IsSame self.old self.new }
    {
        self.faults = self.faults.saturating_add(1);
        StoreFault::Device
    }

    /// Puts a text at this path, in the place of one that is there.
    #[tactic(auto, using(std::proofs::lemmas::Map::Text::text_keys))]
    pub fn put_text(&mut self, path: &str, bytes: &[u8]) -> Result<(), StoreFault>
        ensures ok { OnOk result (PutsText self.old path.now bytes.now self.new) }
        ensures memory { IfErr result (λ fault. fault ≡ StoreFault.Memory) }
        ensures counted { self.new.faults ≡ self.old.faults }
    {
        let Ok(path) = String::from_str(self.alloc, path) else {
            return Err(StoreFault::Memory);
        };
        let Ok(bytes) = Vec::from_slice(self.alloc, bytes) else {
            return Err(StoreFault::Memory);
        };
        match self.texts.insert(path, bytes) {
            Ok(_) => Ok(()),
            Err(_) => Err(StoreFault::Memory),
        }
    }

    /// What takes files for this path, unless something stands there.
    pub fn begin(
        &mut self,
        path: &str,
        catalog: Option<Vec<u8>>,
    ) -> Result<MemoryOutput, StoreFault>
        ensures ok { IfOk result (λ output. MakesOutput self.old path.now output self.new) }
        ensures catalog { IfOk result (λ output. output.catalog ≡ catalog) }
        ensures err { IfErr result (λ fault. Denies self.old path.now fault self.new) }
        ensures device { IsErrOf result StoreFault.Device → CountsFault self.old.faults self.new.faults }
        ensures counted { self.old.faults ≤ self.new.faults }
    {
        if self.is_taken(path) {
            return Err(self.fault());
        }
        match MemoryOutput::new(self.alloc, path, catalog, &self.marked) {
            Ok(output) => Ok(output),
            Err(_) => Err(StoreFault::Memory),
        }
    }

    /// Lets what was marked stand at its path.
    pub fn settle(&mut self) -> Result<(), AllocError> {
        if let Ok(marked) = self.marked.try_replace(Vec::new(self.alloc)) {
            for (path, standing) in marked {
                self.stores.insert(path, standing)?;
            }
        }
        Ok(())
    }
}

impl Places for MemoryPlaces {
    ghost use Rattle.verb_cases.specs.Standing.{Misses, ReadsBytes, files_at};

    type Store = MemoryFiles;

    type Output = MemoryOutput;

    ghost reads = { ReadsBytes };

    ghost misses = { Misses };

    ghost opens = { λ s path catalog store. store.files ≡ files_at s path };

    ghost makes = { MakesOutput };

    ghost denies = { Denies };

    ghost draws = { PutsText };

    ghost fault_count = { λ s. s.faults };

    fn catalog(&mut self, path: &str) -> Result<Vec<u8>, StoreFault> {
        match self.stores.get(path) {
            Some(
                Standing {
                    catalog: Some(bytes),
                    ..
                },
            ) => copy(self.alloc, bytes.as_slice()),
            _ => Err(self.fault()),
        }
    }

    fn catalog_or_file(&mut self, path: &str) -> Result<Vec<u8>, StoreFault> {
        match self.texts.get(path) {
            Some(bytes) => copy(self.alloc, bytes.as_slice()),
            None => self.catalog(path),
        }
    }

    fn files(&self, path: &str, _catalog: &Catalog) -> Result<MemoryFiles, AllocError> {
        let files = match self.stores.get(path) {
            Some(store) => copy_files(self.alloc, &store.files)?,
            None => FileSet::new(self.alloc)?,
        };
        Ok(MemoryFiles::new(self.alloc, files))
    }

    fn output(&mut self, path: &str) -> Result<MemoryOutput, StoreFault> {
        self.begin(path, None)
    }

    fn picture(&mut self, path: &str, bytes: &[u8]) -> Result<(), StoreFault> {
        self.put_text(path, bytes)
    }

    fn faults(&self) -> u64 {
        self.faults
    }
}

/// A copy of some bytes.
pub fn copy(alloc: Global, bytes: &[u8]) -> Result<Vec<u8>, StoreFault>
    ensures same { IfOk result (λ copy. copy.items ≡ bytes.now) }
    ensures memory { IfErr result (λ fault. fault ≡ StoreFault.Memory) }
{
    match Vec::from_slice(alloc, bytes) {
        Ok(copy) => Ok(copy),
        Err(_) => Err(StoreFault::Memory),
    }
}
