//! Reading the surviving files of a store, continuing after failed reads.
ghost use Rattle.std.specs.Prelude.{◌≡◌, ◌≢◌, ◌≤◌, [], None, IfOk, OnOk, OnErr};
ghost use Rattle.std.specs.List.{AllByRecursion};
ghost use Rattle.std.specs.List.Sorted.{IsStrictlySortedBy};
ghost use Rattle.cs_schema.specs.FileNames.{name_cmp, surviving};
ghost use Rattle.cs_store.specs.Fault.{CountsFault};
ghost use Rattle.cs_store.specs.FileSet.{contents_of};
ghost use Rattle.cs_store.specs.LoadReadable.{LoadsReadable, AttemptsSome, Attempts, StopsAttempt};

use crate::loading::keep;
use crate::{FileSet, Source, StoreFault};
use cs_schema::{Catalog, FileName, Loss};
use std::alloc::{AllocError, Global};

/// What a load found that continues after failed reads.
#[derive(Drop)]
pub struct Readable {
    /// The files that could be read.
    pub files: FileSet,
    /// The names at which the device failed, ascending.
    pub unreadable: Vec<FileName>,
}

/// Reads the files that survive the loss, in the order of their names, and continues after failed reads. Files that the
/// source does not have are left out.
///
/// No unreadable name is among the files.
pub fn load_readable<S: Source>(
    alloc: Global,
    catalog: &Catalog,
    loss: Loss,
    source: &mut S,
) -> Result<Readable, AllocError>
    ensures ok { IfOk result (λ found. LoadsReadable S.gives S.refuses (surviving catalog.now loss)
        source.old found.files found.unreadable.items source.new) }
    ensures order { IfOk result (λ found. IsStrictlySortedBy name_cmp found.unreadable.items) }
    ensures apart { IfOk result (λ found.
        AllByRecursion (λ name. contents_of found.files name ≡ None) found.unreadable.items) }
    ensures reads { AttemptsSome S.gives S.refuses (surviving catalog.now loss) source.old source.new }
    ensures device { IfOk result (λ found. found.unreadable.items ≢ []
        → CountsFault (S.fault_count source.old) (S.fault_count source.new)) }
    ensures counted { S.fault_count source.old ≤ S.fault_count source.new }
{
    let names = catalog.surviving(alloc, loss)?;
    attempt_names(alloc, names.as_slice(), source)
}

/// Reads the files with these names, in this order.
fn attempt_names<S: Source>(
    alloc: Global,
    names: &[FileName],
    source: &mut S,
) -> Result<Readable, AllocError>
    requires { IsStrictlySortedBy name_cmp names.now }
    ensures ok { IfOk result (λ found. LoadsReadable S.gives S.refuses names.now
        source.old found.files found.unreadable.items source.new) }
    ensures order { IfOk result (λ found. IsStrictlySortedBy name_cmp found.unreadable.items) }
    ensures apart { IfOk result (λ found.
        AllByRecursion (λ name. contents_of found.files name ≡ None) found.unreadable.items) }
    ensures reads { AttemptsSome S.gives S.refuses names.now source.old source.new }
    ensures device { IfOk result (λ found. found.unreadable.items ≢ []
        → CountsFault (S.fault_count source.old) (S.fault_count source.new)) }
    ensures counted { S.fault_count source.old ≤ S.fault_count source.new }
{
    let mut found = Readable {
        files: FileSet::new(alloc)?,
        unreadable: Vec::new(alloc),
    };
    for name in names {
        attempt(source, *name, &mut found)?;
    }
    Ok(found)
}

/// Reads the file with this name and adds the result.
fn attempt<S: Source>(
    source: &mut S,
    name: FileName,
    found: &mut Readable,
) -> Result<(), AllocError>
    ensures ok { OnOk result (Attempts S.gives S.refuses S.fault_count source.old name
        found.old.files found.old.unreadable.items found.new.files found.new.unreadable.items source.new) }
    ensures err { OnErr result (StopsAttempt S.gives S.refuses source.old name source.new) }
    ensures counted { S.fault_count source.old ≤ S.fault_count source.new }
{
    match source.read(name) {
        Ok(file) => keep(&mut found.files, name, file),
        Err(StoreFault::Device) => {
            found.unreadable.push(name)?;
            Ok(())
        }
        Err(StoreFault::Memory) => Err(AllocError),
    }
}
