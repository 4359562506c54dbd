//! Tables and new stores in memory.
use crate::outputs::MemoryOutput;
use crate::places::{MemoryPlaces, copy};
use cs_store::StoreFault;
use pinepolo_places::{Tables, Way};
use std::io::Cursor;

impl Tables for MemoryPlaces {
    ghost use Rattle.verb_cases.specs.Standing.{BeginsStore, OpensText, PutsText};

    type Input = Cursor<Vec<u8>>;

    type NewStore = MemoryOutput;

    ghost opens_table = { OpensText };

    ghost begins = { BeginsStore };

    ghost writes_table = { PutsText };

    fn way(&self, path: &str) -> Result<Way, StoreFault> {
        if self.is_taken(path) {
            Ok(Way::Taken)
        } else {
            Ok(Way::Free)
        }
    }

    fn table(&mut self, path: &str) -> Result<Cursor<Vec<u8>>, StoreFault> {
        let copied = match self.texts.get(path) {
            Some(bytes) => copy(self.alloc, bytes.as_slice()),
            None => Err(self.fault()),
        };
        match copied {
            Ok(bytes) => Ok(Cursor::new(bytes)),
            Err(fault) => Err(fault),
        }
    }

    fn new_store(
        &mut self,
        path: &str,
        catalog: &[u8],
        _replaces: bool,
    ) -> Result<MemoryOutput, StoreFault> {
        match copy(self.alloc, catalog) {
            Ok(catalog) => self.begin(path, Some(catalog)),
            Err(fault) => Err(fault),
        }
    }

    fn write_table(&mut self, path: &str, text: &[u8]) -> Result<(), StoreFault> {
        self.put_text(path, text)
    }
}
