//! Reads of a shelf, which change nothing.
ghost use Rattle.std.specs.Prelude.{◌≡◌, ◌≢◌, ◌≤◌, [], None, IfOk, IfErr};
ghost use Rattle.std.specs.List.{AllByRecursion};
ghost use Rattle.cs_schema.specs.FileNames.{surviving};
ghost use Rattle.cs_store.specs.Fault.{CountsFault, MemoryOr};
ghost use Rattle.cs_store.specs.FileSet.{contents_of};
ghost use Rattle.cs_store.specs.LoadReadable.{LoadsReadable};
ghost use Rattle.cs_shelf.specs.Faults.{FailsToRead};
ghost use Rattle.cs_shelf.specs.Shelf.{ChangesNothing, IsFoundIn, IsReadIn};

use crate::Shelf;
use cs_schema::{Catalog, Loss};
use cs_store::{Fault, FileSet, Readable, load, load_readable};
use std::alloc::{AllocError, Global};

/// Reads the files that survive a loss. No file changes at any moment, whatever the answer.
pub fn load_held<S: Shelf>(
    alloc: Global,
    catalog: &Catalog,
    loss: Loss,
    shelf: &mut S,
) -> Result<FileSet, Fault>
    ensures found { IfOk result (λ files. IsFoundIn (S.holds shelf.new) (surviving catalog.now loss) files) }
    ensures unchanged { ChangesNothing S.holds S.may_leave S.kept S.moment S.left_since shelf.old shelf.new }
    ensures device { IfErr result (λ fault. MemoryOr fault (FailsToRead (S.fault_count shelf.old) (S.fault_count shelf.new) fault)) }
    ensures counted { S.fault_count shelf.old ≤ S.fault_count shelf.new }
{
    load(alloc, catalog, loss, shelf)
}

/// Reads every file of the store that can be read. No file changes at any moment, whatever the answer.
pub fn load_readable_held<S: Shelf>(
    alloc: Global,
    catalog: &Catalog,
    shelf: &mut S,
) -> Result<Readable, AllocError>
    ensures loads { IfOk result (λ found. LoadsReadable S.gives S.refuses (surviving catalog.now []) shelf.old found.files found.unreadable.items shelf.new) }
    ensures found { IfOk result (λ found. IsReadIn (S.holds shelf.new) (surviving catalog.now []) found.files found.unreadable.items) }
    ensures apart { IfOk result (λ found.
        AllByRecursion (λ name. contents_of found.files name ≡ None) found.unreadable.items) }
    ensures device { IfOk result (λ found. found.unreadable.items ≢ []
        → CountsFault (S.fault_count shelf.old) (S.fault_count shelf.new)) }
    ensures unchanged { ChangesNothing S.holds S.may_leave S.kept S.moment S.left_since shelf.old shelf.new }
    ensures counted { S.fault_count shelf.old ≤ S.fault_count shelf.new }
{
    load_readable(alloc, catalog, Loss::none(), shelf)
}
