//! The digests in a manifest.
ghost use Rattle.std.specs.Prelude.{◌≡◌, ℕ, List, None, IfOk};
ghost use Rattle.std.specs.Option.{option_copied};
ghost use Rattle.cs_manifest.specs.Reading.{digest_in, Adds};

use std::alloc::{AllocError, Global};
use std::collections::BTreeMap;

/// The digests of some files, by their paths.
#[derive(Drop)]
pub struct Manifest {
    digests: BTreeMap<String, [u8; 32]>,
}

impl Manifest {
    /// An empty manifest.
    pub fn new(alloc: Global) -> Self
        ensures { (path : List ℕ) → digest_in result path ≡ None }
    {
        Self {
            digests: BTreeMap::new(alloc),
        }
    }

    /// The digest of the file at this path, if the manifest has one.
    pub fn digest(&self, path: &str) -> Option<&[u8; 32]>
        ensures { option_copied result ≡ digest_in self.now path.now }
    {
        self.digests.get(path)
    }

    /// Adds a digest, and returns whether the path had none yet.
    pub(crate) fn add(
        &mut self,
        alloc: Global,
        path: &str,
        digest: [u8; 32],
    ) -> Result<bool, AllocError>
        ensures { IfOk result (λ added. Adds (digest_in self.old) path.now digest added (digest_in self.new)) }
    {
        if self.digests.contains_key(path) {
            return Ok(false);
        }
        let path = String::from_str(alloc, path)?;
        self.digests.insert(path, digest)?;
        Ok(true)
    }
}
