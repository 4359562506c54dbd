//! Sets of files.
ghost use Rattle.std.specs.Prelude.{◌≡◌, ◌<◌, ◌^◌, ◌↔◌, IsTrue, Some, IfOk, OnOk, OnErr, slice_get};
ghost use Rattle.std.specs.Option.{option_map};
ghost use Rattle.std.specs.FinMap as map;

use cs_schema::FileName;
use std::alloc::{AllocError, Global};
use std::collections::BTreeMap;
use std::collections::btree_map::Iter;
use std::marker::Model;

/// The bytes of files by name. Contracts see a finite map.
#[derive(Drop)]
pub struct FileSet {
    files: BTreeMap<FileName, Vec<u8>>,
}

impl Model for FileSet {
    ghost use Rattle.std.specs.BTreeMap.{IsOrdered};
    ghost use Rattle.std.specs.Coded.{coded_list, coded_ℕ};
    ghost use Rattle.std.specs.FinMap.{code, from_sorted};
    ghost use Rattle.cs_schema.specs.FileNames.{name_cmp};
    ghost use Rattle.cs_schema.specs.contracts.file_name.FileName.{the_row};
    ghost use Rattle.cs_store.specs.FileSet.{Files, named_bytes};

    ghost Value = { Files };

    ghost coded = { code the_row.coded (coded_list coded_ℕ) };

    ghost view = { λ s. from_sorted (named_bytes s.files.entries) };

    ghost invariant = { λ s. IsOrdered name_cmp s.files };
}

impl FileSet {
    ghost use Rattle.cs_store.specs.FileSet.{contents_of, named_bytes};

    /// The empty set.
    pub fn new(alloc: Global) -> Result<Self, AllocError>
        ensures { IfOk result (λ files. files ≡ map.empty) }
    {
        Ok(Self {
            files: BTreeMap::new(alloc),
        })
    }

    /// Puts a file, replacing one of the same name.
    pub fn put(&mut self, name: FileName, bytes: Vec<u8>) -> Result<(), AllocError>
        ensures ok { OnOk result (self.new ≡ map.insert self.old name bytes.items) }
        ensures err { OnErr result (self.new ≡ self.old) }
    {
        self.files.insert(name, bytes)?;
        Ok(())
    }

    /// The bytes of the file with this name, if there is one.
    pub fn get(&self, name: FileName) -> Option<&[u8]>
        ensures { option_map (λ bytes. bytes.now) result ≡ contents_of self.now name }
    {
        match self.files.get(&name) {
            Some(bytes) => Some(bytes.as_slice()),
            None => None,
        }
    }

    /// The number of files.
    pub fn len(&self) -> usize
        ensures count { result ≡ map.len self.now }
        ensures small { result < 2 ^ 63 }
    {
        self.files.len()
    }

    /// Whether there are no files.
    pub fn is_empty(&self) -> bool
        ensures { IsTrue result ↔ (map.len self.now ≡ 0) }
    {
        self.len() == 0
    }

    /// The file at an index, from 0, in the order of names. It takes time linear in the index.
    pub fn at(&self, i: usize) -> (FileName, &[u8])
        requires { i < map.len self.now }
        ensures { slice_get (map.entries self.now) i ≡ Some (result.0, result.1.now) }
    {
        let (name, bytes) = self.files.iter().nth(i).unwrap();
        (*name, bytes.as_slice())
    }

    /// The files in the order of names.
    pub(crate) fn iter(&self) -> Iter<'_, FileName, Vec<u8>>
        ensures { named_bytes result ≡ map.entries self.now }
    {
        self.files.iter()
    }
}
