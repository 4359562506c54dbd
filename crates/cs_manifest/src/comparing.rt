//! Compares a store with a manifest.
ghost use Rattle.std.specs.Prelude.{◌≡◌, ◌++◌, [], ◌∷◌, IfOk, OnOk};
ghost use Rattle.std.specs.List.{filter_map};
ghost use Rattle.std.specs.Option.{option_copied};
ghost use Rattle.cs_manifest.specs.Comparisons.{how_differs, file_difference, AreDifferences};

use crate::digesting::Digested;
use crate::line::CATALOG;
use crate::manifest::Manifest;
use cs_schema::FileName;
use std::alloc::{AllocError, Global};

/// How a file differs from its line in a manifest: the first of these that applies.
#[derive(Clone, Copy, Debug, PartialEq, Eq)]
pub enum Difference {
    /// The file is missing.
    Missing,
    /// The device failed while the file was read.
    Unreadable,
    /// The manifest does not name the file.
    NotNamed,
    /// The file has another digest.
    Changed,
}

/// How a store differs from a manifest.
#[derive(Drop)]
pub struct Comparison {
    /// How the catalog differs, if it does.
    pub catalog: Option<Difference>,
    /// The files that differ, ascending by name.
    pub files: Vec<(FileName, Difference)>,
}

/// How the outcome of reading a file differs from the expected digest.
fn difference_of(wanted: Option<&[u8; 32]>, found: &Digested) -> Option<Difference>
    ensures { result ≡ how_differs (option_copied wanted.entry) found.now }
{
    match (found, wanted) {
        (Digested::Missing, _) => Some(Difference::Missing),
        (Digested::Unreadable, _) => Some(Difference::Unreadable),
        (Digested::Found(_), None) => Some(Difference::NotNamed),
        (Digested::Found(digest), Some(wanted)) => {
            if wanted == digest {
                None
            } else {
                Some(Difference::Changed)
            }
        }
    }
}

/// How a store differs from a manifest, given the digest of its catalog and the outcome of reading each of its files. Other
/// names in the manifest are ignored.
pub fn compare(
    alloc: Global,
    manifest: &Manifest,
    catalog: &[u8; 32],
    files: &[(FileName, Digested)],
) -> Result<Comparison, AllocError>
    ensures { IfOk result (AreDifferences manifest.now catalog.now files.now) }
{
    let catalog = difference_of(manifest.digest(CATALOG), &Digested::Found(*catalog));
    let mut differing = Vec::new(alloc);
    for (name, found) in files {
        keep_difference(&mut differing, manifest, *name, found)?;
    }
    Ok(Comparison {
        catalog,
        files: differing,
    })
}

/// Adds a file that differs.
fn keep_difference(
    differing: &mut Vec<(FileName, Difference)>,
    manifest: &Manifest,
    name: FileName,
    found: &Digested,
) -> Result<(), AllocError>
    ensures { OnOk result (differing.new.items ≡ differing.old.items
        ++ filter_map (file_difference manifest.now) ((name, found.now) ∷ [])) }
{
    match difference_of(manifest.digest(name.path().as_str()), found) {
        Some(how) => {
            differing.push((name, how))?;
            Ok(())
        }
        None => Ok(()),
    }
}
