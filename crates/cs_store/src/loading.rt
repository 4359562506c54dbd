//! Reading the surviving files of a store.
ghost use Rattle.std.specs.Prelude.{◌≡◌, ◌≤◌, IfOk, IfErr, IsErrOf, OnOk, MatchOption};
ghost use Rattle.std.specs.FinMap.{insert};
ghost use Rattle.std.specs.List.Sorted.{IsStrictlySortedBy};
ghost use Rattle.cs_schema.specs.FileNames.{name_cmp, surviving};
ghost use Rattle.cs_schema.specs.declared.file_name.FileName.{FileName};
ghost use Rattle.cs_store.specs.Fault.{CountsFault, MemoryOr};
ghost use Rattle.cs_store.specs.Load.{Loads, ReadsSome, StopsLoading};

use crate::{Fault, FileSet, Source, StoreFault};
use cs_schema::{Catalog, FileName, Loss};
use std::alloc::{AllocError, Global};

/// Reads the files that survive the loss, in the order of their names. Files that the source does not have are left
/// out.
///
/// `Read` names the first file at which the device failed. Whatever the answer, some files were read and at most one
/// read failed.
pub fn load<S: Source>(
    alloc: Global,
    catalog: &Catalog,
    loss: Loss,
    source: &mut S,
) -> Result<FileSet, Fault>
    ensures ok { IfOk result (λ files.
        Loads S.gives (surviving catalog.now loss) source.old files source.new) }
    ensures err { IfErr result (λ fault. MemoryOr fault
        (StopsLoading S.gives S.refuses (surviving catalog.now loss) source.old fault source.new)) }
    ensures reads { ReadsSome S.gives S.refuses (surviving catalog.now loss) source.old source.new }
    ensures device { (name : FileName) → IsErrOf result (Fault.Read name)
        → CountsFault (S.fault_count source.old) (S.fault_count source.new) }
    ensures counted { S.fault_count source.old ≤ S.fault_count source.new }
{
    match catalog.surviving(alloc, loss) {
        Ok(names) => load_names(alloc, names.as_slice(), source),
        Err(_) => Err(Fault::Memory),
    }
}

/// Reads the files with these names, in this order.
fn load_names<S: Source>(
    alloc: Global,
    names: &[FileName],
    source: &mut S,
) -> Result<FileSet, Fault>
    requires { IsStrictlySortedBy name_cmp names.now }
    ensures ok { IfOk result (λ files. Loads S.gives names.now source.old files source.new) }
    ensures err { IfErr result (λ fault. MemoryOr fault
        (StopsLoading S.gives S.refuses names.now source.old fault source.new)) }
    ensures reads { ReadsSome S.gives S.refuses names.now source.old source.new }
    ensures device { (name : FileName) → IsErrOf result (Fault.Read name)
        → CountsFault (S.fault_count source.old) (S.fault_count source.new) }
    ensures counted { S.fault_count source.old ≤ S.fault_count source.new }
{
    let Ok(mut files) = FileSet::new(alloc) else {
        return Err(Fault::Memory);
    };
    for name in names {
        let file = match source.read(*name) {
            Ok(file) => file,
            Err(StoreFault::Memory) => return Err(Fault::Memory),
            Err(StoreFault::Device) => return Err(Fault::Read(*name)),
        };
        if keep(&mut files, *name, file).is_err() {
            return Err(Fault::Memory);
        }
    }
    Ok(files)
}

/// Adds what a read gave, if there was such a file.
pub(crate) fn keep(
    files: &mut FileSet,
    name: FileName,
    file: Option<Vec<u8>>,
) -> Result<(), AllocError>
    ensures { OnOk result (MatchOption file (files.new ≡ files.old)
        (λ bytes. files.new ≡ insert files.old name bytes.items)) }
{
    match file {
        Some(bytes) => files.put(name, bytes),
        None => Ok(()),
    }
}
