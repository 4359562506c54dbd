//! Files that are trusted only where a manifest says no other digest of them.
ghost use Rattle.std.specs.Prelude.{◌≡◌, ◌⊎◌, ℕ, List, Some, true, false, IsSome, IfOk, OnErr};
ghost use Rattle.std.specs.Option.{option_map};
ghost use Rattle.cs_schema.specs.FileNames.{file_path};
ghost use Rattle.cs_verifying.specs.Trust.{is_changed, MayReadManifest};

use crate::reading::manifest_at;
use cs_manifest::{Manifest, digest_of};
use cs_parallel_io::SharedSource;
use cs_schema::FileName;
use cs_store::StoreFault;
use pinepolo_places::{Tables, VerbError};
use std::alloc::Global;

/// Whether a manifest says another digest than that of these bytes; of a path that it lacks it says none.
pub fn is_changed(manifest: &Manifest, path: &str, bytes: &[u8]) -> bool
    ensures { result ≡ is_changed manifest.now path.now bytes.now }
{
    match manifest.digest(path) {
        Some(wanted) => *wanted != digest_of(bytes),
        None => false,
    }
}

/// The files of a source, of which one fails the device whose digest a manifest says otherwise.
#[derive(Clone, Copy)]
pub struct Trusted<'a, S> {
    pub source: &'a S,
    pub manifest: &'a Manifest,
}

impl<S: SharedSource> SharedSource for Trusted<'_, S> {
    ghost use Rattle.std.specs.Prelude.{◌≡◌, ◌⊎◌, ℕ, List, Some, true, false};
    ghost use Rattle.cs_schema.specs.FileNames.{file_path};
    ghost use Rattle.cs_store.specs.declared.fault.StoreFault.TheVariants.{Device};
    ghost use Rattle.cs_verifying.specs.Trust.{is_changed};

    ghost answers = { λ t name file. S.answers t.source.now name file
        × ((bytes : List ℕ) → file ≡ Some bytes → is_changed t.manifest.now (file_path name) bytes ≡ false) };

    ghost fails = { λ t name fault. S.fails t.source.now name fault
        ⊎ ((fault ≡ Device) × ((bytes : List ℕ) × S.answers t.source.now name (Some bytes) × (is_changed t.manifest.now (file_path name) bytes ≡ true))) };

    fn read_shared(&self, name: FileName) -> Result<Option<Vec<u8>>, StoreFault> {
        let file = match self.source.read_shared(name) {
            Ok(file) => file,
            Err(fault) => return Err(fault),
        };
        match &file {
            Some(bytes) if is_changed(self.manifest, name.path().as_str(), bytes.as_slice()) => Err(
                StoreFault::Device,
            ),
            _ => Ok(file),
        }
    }
}

/// The manifest at this path; where there is none, one that says nothing.
pub fn manifest_if<P: Tables>(
    alloc: Global,
    places: &mut P,
    path: Option<&str>,
) -> Result<Manifest, VerbError>
    ensures ok { IfOk result (λ manifest. MayReadManifest P.opens_table P.Input.remaining places.old (option_map (λ p. p.now) path.entry) manifest places.new) }
    ensures err { OnErr result (IsSome path.entry) }
{
    match path {
        Some(path) => manifest_at(alloc, places, path),
        None => Ok(Manifest::new(alloc)),
    }
}
