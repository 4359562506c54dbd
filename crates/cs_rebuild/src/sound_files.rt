//! The surviving files of a store: what they hold, or the first bad one.
ghost use Rattle.std.specs.Prelude.{◌≡◌, ◌↔◌, ◌⊎◌, Some, None, Ok, Err, IsTrue, IfSome, IfOk, IfErr};
ghost use Rattle.std.specs.declared.cmp.Ordering.TheVariants.{Less};
ghost use Rattle.cs_schema.specs.CatalogData.{CatalogData};
ghost use Rattle.cs_schema.specs.CatalogRules.{IsCatalog};
ghost use Rattle.cs_schema.specs.FileNames.{FileContents, name_cmp, surviving};
ghost use Rattle.cs_schema.specs.Losses.{Sites};
ghost use Rattle.cs_schema.specs.declared.file_name.FileName.{FileName as NameData};
ghost use Rattle.cs_store.specs.FileSet.{contents_of};
ghost use Rattle.cs_store.specs.Fault.{MemoryOr};
ghost use Rattle.cs_recovery.specs.Verdicts.{FileFault, IsVerdict};
ghost use Rattle.cs_rebuild.specs.Answers.{IsOfFiles};
ghost use Rattle.cs_rebuild.specs.Reading.{AreDigests, IsFirstUnsealed, resealed};
ghost use Rattle.cs_rebuild.specs.Steps.{AreBodiesSound, AreRead, IsBadFile};

use crate::digests::least_unsealed;
use crate::reading::read_bodies;
use crate::run::Run;
use cs_board::Gate;
use cs_rows::Survivors;
use cs_schema::{Catalog, FileName, Loss};
use cs_store::{Fault, FileSet};
use std::alloc::AllocError;
use std::marker::Sync;
use std::thread::{Threads, join_mut};

/// The name of the file that a fault refuses.
fn refused_name(fault: &Fault) -> Option<FileName>
    ensures named { (F : FileContents) (n : NameData) → FileFault F n fault.now → result ≡ Some n }
    ensures file { IfSome result (λ _. IsOfFiles fault.now) }
{
    match fault {
        Fault::Missing(name) | Fault::Damaged(name) => Some(*name),
        _ => None,
    }
}

/// Whether a name comes before another.
fn is_before(name: FileName, other: FileName) -> bool
    ensures { IsTrue result ↔ name_cmp name other ≡ Less }
{
    name < other
}

/// The fault of the first bad file by name, given the fault of a store whose digests are taken for right, and the first
/// file with a wrong digest.
fn lesser(fault: Fault, unsealed: FileName) -> Fault
    ensures { (C : CatalogData) (L : Sites) (F : FileContents) → IsCatalog C
        → IsFirstUnsealed F (surviving C L) unsealed → MemoryOr fault (IsVerdict C (resealed F) L (Err fault))
        → MemoryOr result (IsBadFile C F L result) }
{
    if let Fault::Memory = fault {
        return fault;
    }
    let bad = match refused_name(&fault) {
        Some(bad) => bad,
        // a fault of rows: all bodies are sound
        None => return Fault::Damaged(unsealed),
    };
    if is_before(bad, unsealed) {
        return fault;
    }
    Fault::Damaged(unsealed)
}

/// What was found in a store whose digests are taken for right, if they are, otherwise the fault of the first bad file
/// by name.
pub fn unless_bad<T: Drop>(
    unsealed: Result<Option<FileName>, AllocError>,
    found: Result<T, Fault>,
) -> Result<T, Fault>
    ensures ok { IfOk result (λ made. (found ≡ Ok made) × (unsealed ≡ Ok None)) }
    ensures err { IfErr result (λ fault. ((found ≡ Err fault) × (unsealed ≡ Ok None))
        ⊎ ((C : CatalogData) (L : Sites) (F : FileContents) → IsCatalog C
        → IfOk unsealed (AreDigests C L F) → IfOk found (λ _. AreBodiesSound C L F)
        → IfErr found (λ f. MemoryOr f (IsVerdict C (resealed F) L (Err f))) → MemoryOr fault (IsBadFile C F L fault))) }
{
    let unsealed = match unsealed {
        Ok(unsealed) => unsealed,
        Err(_) => return Err(Fault::Memory),
    };
    let name = match unsealed {
        Some(name) => name,
        None => return found,
    };
    match found {
        Ok(_found) => Err(Fault::Damaged(name)),
        Err(fault) => Err(lesser(fault, name)),
    }
}

/// The first file with a wrong digest and, in parallel, what the bodies of the surviving files hold.
fn read_beside<'a, R: Threads + Sync, G: Gate + Sync>(
    run: &Run<'_, R, G>,
    catalog: &'a Catalog,
    loss: Loss,
    files: &FileSet,
) -> (
    Result<Option<FileName>, AllocError>,
    Result<Survivors<'a>, Fault>,
)
    ensures digests { IfOk result.0 (AreDigests catalog.now loss (contents_of files.now)) }
    ensures ok { IfOk result.1 (AreRead catalog.now (resealed (contents_of files.now)) loss) }
    ensures bad { IfErr result.1 (λ fault. MemoryOr fault (IsBadFile catalog.now (resealed (contents_of files.now)) loss fault)) }
{
    // `join` guarantees nothing for a closure over a struct of references
    join_mut(
        run.rt,
        &mut || -> Result<Option<FileName>, AllocError>
            ensures { IfOk result (AreDigests catalog.entry.now loss (contents_of files.entry.now)) }
        { least_unsealed(run, catalog, loss, files) },
        &mut || -> Result<Survivors<'_>, Fault>
            ensures ok { IfOk result (AreRead catalog.entry.now (resealed (contents_of files.entry.now)) loss) }
            ensures bad { IfErr result (λ fault. MemoryOr fault (IsBadFile catalog.entry.now (resealed (contents_of files.entry.now)) loss fault)) }
        { read_bodies(run, catalog, loss, files) },
    )
}

/// What the files that survive a loss hold, or `Missing` or `Damaged` of the first bad one by name. `Memory` may take
/// the place of any answer.
pub fn read_store<'a, R: Threads + Sync, G: Gate + Sync>(
    run: &Run<'_, R, G>,
    catalog: &'a Catalog,
    loss: Loss,
    files: &FileSet,
) -> Result<Survivors<'a>, Fault>
    ensures ok { IfOk result (AreRead catalog.now (contents_of files.now) loss) }
    ensures bad { IfErr result (λ fault. MemoryOr fault (IsBadFile catalog.now (contents_of files.now) loss fault)) }
    ensures err { IfErr result (λ fault. MemoryOr fault (IsVerdict catalog.now (contents_of files.now) loss (Err fault))) }
    ensures rules { IsCatalog catalog.now }
{
    let _rules = catalog.projection_count();
    let (unsealed, read) = read_beside(run, catalog, loss, files);
    match unless_bad(unsealed, read) {
        Ok(survivors) => Ok(survivors),
        Err(fault) => Err(fault),
    }
}
