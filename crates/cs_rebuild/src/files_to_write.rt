//! The names of the files that a recovery writes.
ghost use Rattle.std.specs.Prelude.{◌≡◌, IfOk};
ghost use Rattle.cs_schema.specs.FileNames.{HasName};
ghost use Rattle.cs_rebuild.specs.FilesToWrite.{files_to_write, is_among, is_written};

use cs_safety::alive;
use cs_schema::{Catalog, FileName, Loss};
use std::alloc::{AllocError, Global};

/// Whether a recovery writes the file of a name of the catalog: the loss takes it, or it is a join index into a
/// projection with a lost segment.
fn is_written(catalog: &Catalog, loss: Loss, name: FileName) -> bool
    requires { HasName catalog.now name }
    ensures { result ≡ is_written catalog.now loss name }
{
    // for its clause on the targets of join indexes
    let _rules = catalog.projection_count();
    match name {
        FileName::Seg { p, s } => catalog.lost(p, s, loss),
        FileName::Del { p, s } => catalog.lost(p, s, loss),
        FileName::Jix { p, s, q } => catalog.lost(p, s, loss) || !alive(catalog, loss, q),
    }
}

/// Whether a file is a join index, if these are meant, or else another file.
fn is_among(joins: bool, name: FileName) -> bool
    ensures { result ≡ is_among joins name }
{
    match name {
        FileName::Jix { .. } => joins,
        _ => !joins,
    }
}

/// The names of the join indexes that a recovery writes, or of the other files, ascending.
pub fn files_to_write(
    alloc: Global,
    catalog: &Catalog,
    loss: Loss,
    joins: bool,
) -> Result<Vec<FileName>, AllocError>
    ensures { IfOk result (λ files. files.items ≡ files_to_write catalog.now loss joins) }
{
    // for its clause on the catalog's rules
    let _rules = catalog.projection_count();
    let names = catalog.surviving(alloc, Loss::none())?;
    let mut files = Vec::new(alloc);
    for name in &names {
        if !is_among(joins, *name) {
            continue;
        }
        if !is_written(catalog, loss, *name) {
            continue;
        }
        files.push(*name)?;
    }
    Ok(files)
}
