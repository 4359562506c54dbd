//! All bad files of a store.
ghost use Rattle.std.specs.Prelude.{◌≡◌, None, IfOk, MatchOption};
ghost use Rattle.std.specs.List.{AllByRecursion};
ghost use Rattle.cs_schema.specs.FileNames.{HasName, surviving};
ghost use Rattle.cs_store.specs.FileSet.{contents_of};
ghost use Rattle.cs_inspection.specs.BadFiles.{IsBad, IsGood, AreBadAmong, AreBadFiles};

use crate::badness::Badness;
use crate::damage::Inspector;
use cs_schema::{Catalog, FileName, Loss};
use cs_store::FileSet;
use std::alloc::{AllocError, Global};
use std::thread::Threads;

/// What is wrong with the file under a name, if anything.
fn badness<R: Threads>(
    inspector: &Inspector<'_, R>,
    unreadable: &[FileName],
    name: FileName,
) -> Result<Option<Badness>, AllocError>
    requires { HasName inspector.now.catalog.now name }
    ensures { IfOk result (λ found. MatchOption found
        (IsGood inspector.now.catalog.now (contents_of inspector.now.files.now) unreadable.now name)
        (IsBad inspector.now.catalog.now (contents_of inspector.now.files.now) unreadable.now name)) }
{
    if unreadable.contains(&name) {
        return Ok(Some(Badness::Unreadable));
    }
    let Some(bytes) = inspector.files.get(name) else {
        return Ok(Some(Badness::Missing));
    };
    match inspector.is_undamaged(name, bytes) {
        Ok(true) => Ok(None),
        Ok(false) => Ok(Some(Badness::Damaged)),
        Err(refused) => Err(refused),
    }
}

/// The bad files of a store with the reason for each, in the order of their names: those that were unreadable, are
/// missing, or have damaged bytes.
///
/// `unreadable` has the names at which the device failed. If a segment is bad, its delta is judged by its own bytes.
/// Fails only if memory is refused.
pub fn bad_files<R: Threads>(
    rt: &R,
    alloc: Global,
    catalog: &Catalog,
    files: &FileSet,
    unreadable: &[FileName],
) -> Result<Vec<(FileName, Badness)>, AllocError>
    ensures { IfOk result (λ bad. AreBadFiles catalog.now (contents_of files.now) unreadable.now bad.items) }
{
    let _rules = catalog.projection_count();
    bad_survivors(rt, alloc, catalog, files, unreadable, Loss::none())
}

/// The bad files among those that survive a loss, with the reason for each, in the order of their names.
///
/// `unreadable` has the names at which the device failed. Files of lost sites are not inspected. If a segment is bad,
/// its delta is judged by its own bytes. Fails only if memory is refused.
pub fn bad_survivors<R: Threads>(
    rt: &R,
    alloc: Global,
    catalog: &Catalog,
    files: &FileSet,
    unreadable: &[FileName],
    loss: Loss,
) -> Result<Vec<(FileName, Badness)>, AllocError>
    ensures { IfOk result (λ bad. AreBadAmong catalog.now (contents_of files.now) unreadable.now (surviving catalog.now loss) bad.items) }
{
    let _rules = catalog.projection_count();
    let names = catalog.surviving(alloc, loss)?;
    let inspector = Inspector {
        rt,
        alloc,
        catalog,
        files,
    };
    let mut bad = Vec::new(alloc);
    for name in &names {
        if let Some(why) = badness(&inspector, unreadable, *name)? {
            bad.push((*name, why))?;
        }
    }
    Ok(bad)
}
