//! In which folder each file of a store stands.
ghost use Rattle.std.specs.Prelude.{◌≡◌, ◌↔◌, None, IfErr, IfOk, IfSome, IsTrue, OnErr, string_bytes};
ghost use Rattle.std.specs.IoError.{error_kind};
ghost use Rattle.std.specs.List.{All};
ghost use Rattle.std.specs.List.Sorted.{IsPermutation};
ghost use Rattle.cs_file_system.specs.Calls.{IsNoMore};
ghost use Rattle.cs_folder_work.specs.Folders.{AreRefused, IsFolderOf, IsInPart, IsOther, IsOutside, IsPartOf, number_in};

use cs_file_system::{FileSystem, Identity};
use cs_schema::FileName;
use cs_sites::Routes;
use std::alloc::{AllocError, Global};
use std::collections::BTreeMap;
use std::io;
use std::io::ErrorKind;

/// A folder in which files of a store stand, such as one on a disk of its own.
#[derive(Drop)]
pub struct OtherFolder {
    pub path: String,
    /// A disk that is no longer mounted leaves another folder at the same path.
    pub identity: Identity,
}

/// Which files stand in other folders than the store's, which are numbered from 0.
#[derive(Drop)]
pub enum Places {
    /// Those of each site, in the folder with the number before the site's.
    Sites(Routes),
    /// Those of these names, whose links lead to the folders with these numbers.
    Links(BTreeMap<FileName, usize>),
}

/// In which folder each file of a store stands: in the store's, or in another one.
#[derive(Drop)]
pub struct StoreFolders {
    /// The folder of the store, in which the record of unfinished work and the journal stand.
    pub store: String,
    /// The other folders; none for one that is away.
    pub others: Vec<Option<OtherFolder>>,
    pub places: Places,
}

/// Names of a store whose files stand in one folder.
#[derive(Drop)]
pub struct Part<'a> {
    pub folder: &'a str,
    pub names: Vec<FileName>,
}

/// The folder at a path; none if it can't be found.
pub fn find_folder<F: FileSystem>(
    files: &mut F,
    alloc: Global,
    path: &str,
) -> Result<Option<OtherFolder>, AllocError>
    ensures { IfOk result (λ found. IfSome found (λ other. string_bytes other.path ≡ path.now)) }
{
    match files.identity(path) {
        Ok(identity) => Ok(Some(OtherFolder {
            path: String::from_str(alloc, path)?,
            identity,
        })),
        Err(_) => Ok(None),
    }
}

/// Whether the folder at a path still has this identity.
fn is_there<F: FileSystem>(files: &mut F, path: &str, identity: Identity) -> bool
    ensures found { IsTrue result → F.has_identity path.now identity }
    ensures same { IsNoMore (F.made files.old) (F.made files.new) }
{
    match files.identity(path) {
        Ok(found) => found.device == identity.device && found.number == identity.number,
        Err(_) => false,
    }
}

impl Places {
    /// The number of the folder of a name's file; none if that is the store's.
    fn number_of(&self, name: FileName) -> Option<usize>
        ensures { result ≡ number_in self.now name }
    {
        match self {
            Places::Sites(routes) => match routes.site_of(name) {
                Some(site) => Some(usize::from(site).saturating_sub(1)),
                None => None,
            },
            Places::Links(numbers) => numbers.get(&name).copied(),
        }
    }
}

impl StoreFolders {
    /// The folder of the store.
    pub fn store(&self) -> &str
        ensures { result.now ≡ string_bytes self.now.store }
    {
        self.store.as_str()
    }

    /// Whether the file of a name stands in the folder of the store.
    pub fn is_in_store(&self, name: FileName) -> bool
        ensures { IsTrue result ↔ (number_in self.now.places name ≡ None) }
    {
        self.places.number_of(name).is_none()
    }

    /// The folder of a name, as long as it is there. Nothing is written where a disk is no longer mounted. The store's own
    /// folder counts as there.
    pub fn reach<F: FileSystem>(&self, files: &mut F, name: FileName) -> io::Result<&str>
        ensures folder { IfOk result (λ folder. IsFolderOf F.has_identity self.now name folder.now) }
        ensures away { IfErr result (λ error. error_kind error ≡ ErrorKind.NotConnected) }
        ensures outside { OnErr result (IsOutside self.now name) }
        ensures same { IsNoMore (F.made files.old) (F.made files.new) }
    {
        match self.places.number_of(name) {
            Some(number) => self.reach_other(files, number),
            None => Ok(self.store.as_str()),
        }
    }

    /// The folder with this number, as long as it is there.
    pub fn reach_other<F: FileSystem>(&self, files: &mut F, number: usize) -> io::Result<&str>
        ensures folder { IfOk result (λ folder. IsOther F.has_identity self.now number folder.now) }
        ensures away { IfErr result (λ error. error_kind error ≡ ErrorKind.NotConnected) }
        ensures same { IsNoMore (F.made files.old) (F.made files.new) }
    {
        if let Some(Some(other)) = self.others.get(number) {
            let path = other.path.as_str();
            if is_there(files, path, other.identity) {
                return Ok(path);
            }
        }
        Err(io::Error::from(ErrorKind::NotConnected))
    }

    /// These names, those of one folder after another: first those of the store's, then those of the others by their numbers.
    fn sorted_by_folder(
        &self,
        alloc: Global,
        names: &[FileName],
    ) -> Result<Vec<FileName>, AllocError>
        ensures { IfOk result (λ sorted. IsPermutation names.now sorted.items) }
    {
        let mut sorted = Vec::from_slice(alloc, names)?;
        sorted.sort_by_key(|name| self.places.number_of(*name))?;
        Ok(sorted)
    }

    /// These names by their folders: first those of the store's, then those of each other folder that has any. Each of these
    /// folders is there. The store's is the first even if no name is in it: what work keeps there gets its record.
    pub fn parts<F: FileSystem>(
        &self,
        files: &mut F,
        alloc: Global,
        names: &[FileName],
    ) -> io::Result<Vec<Part<'_>>>
        ensures folders { IfOk result (λ parts. All (IsPartOf F.has_identity self.now names.now) parts.items) }
        ensures each { IfOk result (λ parts. All (IsInPart parts.items) names.now) }
        ensures refused { IfErr result (AreRefused self.now names.now) }
        ensures same { IsNoMore (F.made files.old) (F.made files.new) }
    {
        let sorted = self.sorted_by_folder(alloc, names)?;
        let mut parts = Vec::new(alloc);
        let mut part = Part {
            folder: self.store(),
            names: Vec::new(alloc),
        };
        let mut last = None;
        for name in sorted.as_slice() {
            let number = self.places.number_of(*name);
            if number != last {
                let folder = self.reach(files, *name)?;
                parts.push(part)?;
                part = Part {
                    folder,
                    names: Vec::new(alloc),
                };
                last = number;
            }
            part.names.push(*name)?;
        }
        parts.push(part)?;
        Ok(parts)
    }

    /// The folders that are there, the store's first.
    pub fn all<F: FileSystem>(
        &self,
        files: &mut F,
        alloc: Global,
    ) -> Result<Vec<&str>, AllocError> {
        let mut all = Vec::new(alloc);
        all.push(self.store())?;
        for number in 0..self.others.len() {
            if let Ok(folder) = self.reach_other(files, number) {
                all.push(folder)?;
            }
        }
        Ok(all)
    }
}
