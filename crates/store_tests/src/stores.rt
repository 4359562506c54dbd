//! Stores in memory, made from plain rows.
use cs_catalog::read_catalog;
use cs_schema::{Catalog, FileName};
use cs_store::FileSet;
use std::alloc::Global;
use std::test::Fail;
use test_support::catalogs::{Edit, edited};
use test_support::columns::Column;
use test_support::file_sets::without;
use test_support::files::{Delta, delta_file, join_file};
use test_support::stores::{Parts, put_parts, put_segment};

/// A catalog and files for it.
#[derive(Drop)]
pub struct Store {
    pub alloc: Global,
    pub catalog: Catalog,
    pub files: FileSet,
}

impl Store {
    /// A store without files.
    pub fn of(alloc: Global, text: &str) -> Result<Store, Fail> {
        let Ok(catalog) = read_catalog(alloc, text.as_bytes()) else {
            return Err(Fail::from("the catalog is not read"));
        };
        let files = FileSet::new(alloc)?;
        Ok(Store {
            alloc,
            catalog,
            files,
        })
    }

    /// A store of these parts.
    pub fn made(alloc: Global, text: &str, parts: &Parts) -> Result<Store, Fail> {
        let mut store = Store::of(alloc, text)?;
        put_parts(alloc, &mut store.files, &store.catalog, parts)?;
        Ok(store)
    }

    /// A store of these parts, under an edited catalog.
    pub fn edited(alloc: Global, text: &str, edits: &[Edit], parts: &Parts) -> Result<Store, Fail> {
        let text = edited(alloc, text, edits)?;
        Store::made(alloc, text.as_str(), parts)
    }

    /// Puts a segment whose columns are in the catalog's encodings, and a delta without items.
    pub fn put_segment(&mut self, p: u16, s: u16, columns: &[Column]) -> Result<(), Fail> {
        let catalog = &self.catalog;
        Ok(put_segment(self.alloc, &mut self.files, catalog, (p, s), columns)?)
    }

    /// Puts the delta of a segment.
    pub fn put_delta(&mut self, p: u16, s: u16, delta: Delta) -> Result<(), Fail> {
        let bytes = delta_file(self.alloc, p, s, delta)?;
        Ok(self.files.put(FileName::Del { p, s }, bytes)?)
    }

    /// Puts a join index.
    pub fn put_join(&mut self, p: u16, s: u16, q: u16, entries: &[(u16, u32)]) -> Result<(), Fail> {
        let bytes = join_file(self.alloc, p, s, q, entries)?;
        Ok(self.files.put(FileName::Jix { p, s, q }, bytes)?)
    }

    /// Puts a file of one byte.
    pub fn put_one_byte(&mut self, name: FileName) -> Result<(), Fail> {
        let byte = Vec::from_slice(self.alloc, &[0])?;
        Ok(self.files.put(name, byte)?)
    }

    /// Changes the last byte of a file.
    pub fn change_last_byte(&mut self, name: FileName) -> Result<(), Fail> {
        let mut bytes = self.bytes_of(name)?;
        if let Some(last) = bytes.as_mut_slice().last_mut() {
            *last ^= 1;
        }
        Ok(self.files.put(name, bytes)?)
    }

    /// Leaves out the last byte of a file.
    pub fn cut_last_byte(&mut self, name: FileName) -> Result<(), Fail> {
        let mut bytes = self.bytes_of(name)?;
        bytes.pop();
        Ok(self.files.put(name, bytes)?)
    }

    fn bytes_of(&self, name: FileName) -> Result<Vec<u8>, Fail> {
        match self.files.get(name) {
            Some(bytes) => Ok(Vec::from_slice(self.alloc, bytes)?),
            None => Err(Fail::from("no such file")),
        }
    }

    /// Removes a file.
    pub fn take_away(&mut self, name: FileName) -> Result<(), Fail> {
        self.files = without(self.alloc, &self.files, name)?;
        Ok(())
    }
}
