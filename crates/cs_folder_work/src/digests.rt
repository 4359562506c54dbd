//! The digests of files that a restore reads anyway, for the journal.
use cs_folders::FileLimits;
use cs_schema::FileName;
use sha2::{Digest, Sha256};
use std::alloc::{AllocError, Global};
use std::collections::BTreeMap;

/// The size of a file and its SHA-256 digest.
#[derive(Clone, Copy)]
pub struct FileDigest {
    pub bytes: u64,
    pub sha256: [u8; 32],
}

impl FileDigest {
    /// The size and the digest of these bytes.
    pub fn of(bytes: &[u8]) -> Self {
        Self {
            bytes: bytes.len() as u64,
            sha256: Sha256::digest(bytes),
        }
    }
}

/// The digests of some names' files, as they were before they changed and as they were last read.
#[derive(Drop)]
pub struct Digests {
    /// The names of which digests are noted, ascending.
    names: Vec<FileName>,
    /// How many bytes a file has that can be read, at most.
    pub limits: FileLimits,
    before: BTreeMap<FileName, FileDigest>,
    now: BTreeMap<FileName, FileDigest>,
}

impl Digests {
    /// Nothing is known yet of the files of these names, which ascend.
    pub fn new(alloc: Global, names: Vec<FileName>, limits: FileLimits) -> Self {
        Self {
            names,
            limits,
            before: BTreeMap::new(alloc),
            now: BTreeMap::new(alloc),
        }
    }

    /// The names of which digests are noted, ascending.
    pub fn names(&self) -> &[FileName] {
        self.names.as_slice()
    }

    /// Whether the file of this name may change.
    pub fn has(&self, name: FileName) -> bool {
        self.names.as_slice().binary_search(&name).is_ok()
    }

    /// Notes the digest of what was read under a name, if it is one of these.
    pub fn note(&mut self, name: FileName, bytes: &[u8]) -> Result<(), AllocError> {
        if self.has(name) {
            self.now.insert(name, FileDigest::of(bytes))?;
        }
        Ok(())
    }

    /// What was last read under these names is what stood there before they change.
    pub fn keep(&mut self, names: &[FileName]) -> Result<(), AllocError> {
        for name in names {
            if let Some(digest) = self.now.remove(name) {
                self.before.insert(*name, digest)?;
            }
        }
        Ok(())
    }

    /// The digest of what stood under a name before it changed, if it was read then.
    pub fn before(&self, name: FileName) -> Option<FileDigest> {
        self.before.get(&name).copied()
    }

    /// The digest of what stands under a name, if it was read since it changed.
    pub fn now(&self, name: FileName) -> Option<FileDigest> {
        self.now.get(&name).copied()
    }
}
