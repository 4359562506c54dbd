//! What is said of each file of a store.
ghost use Rattle.std.specs.Prelude.{◌≡◌, IfOk, MatchOption};
ghost use Rattle.cs_schema.specs.Lists.{IsIn};
ghost use Rattle.cs_store.specs.FileSet.{contents_of};
ghost use Rattle.cs_inspection.specs.BadFiles.{IsListed};
ghost use Rattle.pinepolo_answers.specs.FileLines.{AreInOrder, AreLines, IsLine};

use cs_delta::{Layer, read_delta};
use cs_file_decode::head_count;
use cs_inspection::Badness;
use cs_schema::{Catalog, FileName, Loss};
use cs_segment::FileFault;
use cs_store::FileSet;
use std::alloc::{AllocError, Global};

/// What is said of a file.
#[derive(Clone, Copy)]
pub struct FileLine {
    pub name: FileName,
    /// What is wrong with it, if anything.
    pub badness: Option<Badness>,
    /// How many bytes it has, if it was read.
    pub bytes: Option<u64>,
    /// How many rows a sound segment has, items a sound delta in all layers, or entries a sound join index.
    pub count: Option<u64>,
}

/// How many items layers have together.
fn items_of(layers: &[Layer]) -> u64 {
    let mut items = 0u64;
    for layer in layers {
        items = items.saturating_add(layer.len() as u64);
    }
    items
}

/// How many rows, items or entries a sound file has.
fn count_of(
    alloc: Global,
    catalog: &Catalog,
    name: FileName,
    bytes: &[u8],
) -> Result<Option<u64>, AllocError> {
    match name {
        FileName::Del { p, s } if p < catalog.projection_count() => {
            match read_delta(alloc, catalog, p, s, bytes) {
                Ok(delta) => Ok(Some(items_of(delta.layers.as_slice()))),
                Err(FileFault::Damaged) => Ok(None),
                Err(FileFault::Memory) => Err(AllocError),
            }
        }
        _ => match head_count(name, bytes) {
            Some(count) => Ok(Some(u64::from(count))),
            None => Ok(None),
        },
    }
}

/// What is wrong with a file, if it is among the bad ones, which are in the order of their names.
pub fn badness_of(bad: &[(FileName, Badness)], name: FileName) -> Option<Badness>
    requires { AreInOrder bad.now }
    ensures { MatchOption result (¬ IsListed name bad.now) (λ why. IsIn (name, why) bad.now) }
{
    match bad.binary_search_by_key(&name, |file| file.0) {
        Ok(at) => Some(bad[at].1),
        Err(_) => None,
    }
}

/// What is said of the file of this name.
fn line_of(
    alloc: Global,
    catalog: &Catalog,
    files: &FileSet,
    bad: &[(FileName, Badness)],
    name: FileName,
) -> Result<FileLine, AllocError>
    requires { AreInOrder bad.now }
    ensures { IfOk result (λ line. (line.name ≡ name) × IsLine (contents_of files.now) bad.now line) }
{
    let badness = badness_of(bad, name);
    let Some(bytes) = files.get(name) else {
        return Ok(FileLine {
            name,
            badness,
            bytes: None,
            count: None,
        });
    };
    let count = match badness {
        None => count_of(alloc, catalog, name, bytes)?,
        Some(_) => None,
    };
    Ok(FileLine {
        name,
        badness,
        bytes: Some(bytes.len() as u64),
        count,
    })
}

/// What is said of each file that the catalog names, in the order of names; `bad` are the bad ones, in that order.
pub fn lines_of(
    alloc: Global,
    catalog: &Catalog,
    files: &FileSet,
    bad: &[(FileName, Badness)],
) -> Result<Vec<FileLine>, AllocError>
    requires { AreInOrder bad.now }
    ensures { IfOk result (λ lines. AreLines catalog.now (contents_of files.now) bad.now lines.items) }
{
    let names = catalog.surviving(alloc, Loss::none())?;
    let mut lines = Vec::new(alloc);
    for name in &names {
        let line = line_of(alloc, catalog, files, bad, *name)?;
        lines.push(line)?;
    }
    Ok(lines)
}
