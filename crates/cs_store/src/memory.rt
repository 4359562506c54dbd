//! Test helpers: a source and a sink in memory that can be made to fail at one call.
ghost use Rattle.std.specs.Prelude.{◌≡◌, Some, None, IfOk, IfErr, OnOk, OnErr, take};
ghost use Rattle.std.specs.FinMap.{empty, entries, len};
ghost use Rattle.cs_schema.specs.FileNames.{surviving};
ghost use Rattle.cs_schema.specs.declared.file_name.FileName.{FileName};
ghost use Rattle.cs_store.specs.Fault.{MemoryOr};
ghost use Rattle.cs_store.specs.FileSet.{contents_of};
ghost use Rattle.cs_store.specs.Memory.{held_at, save_calls, IsPlannedRead, IsPlannedWrite};
ghost use Rattle.cs_store.specs.Plan.{planned};

mod failure;
mod sink;
mod source;

use crate::{Fault, FileSet, load, save};
use cs_schema::{Catalog, FileName, Loss};
pub use failure::Failure;
pub use sink::MemorySink;
pub use source::MemorySource;
use std::alloc::Global;

/// Loads from memory: for each surviving name exactly what is stored under it, and nothing else.
///
/// Apart from running out of memory, it fails exactly if the source's plan says so.
pub fn load_from_memory(
    alloc: Global,
    catalog: &Catalog,
    loss: Loss,
    source: &mut MemorySource,
) -> Result<FileSet, Fault>
    ensures held { IfOk result (λ files. (name : FileName)
        → contents_of files name ≡ held_at source.old.files (surviving catalog.now loss) name) }
    ensures unplanned { OnOk result (planned (surviving catalog.now loss) source.old.failure ≡ None) }
    ensures planned { IfErr result (λ fault. MemoryOr fault
        (IsPlannedRead (surviving catalog.now loss) source.old.failure fault)) }
{
    load(alloc, catalog, loss, source)
}

/// Saves to an empty sink in memory. Afterwards the sink has the same files, or some of the first ones and no new mark.
///
/// Apart from running out of memory, it fails exactly if the sink's plan says so.
pub fn save_to_memory(files: &FileSet, sink: &mut MemorySink) -> Result<(), Fault>
    requires { sink.old.files ≡ empty }
    ensures whole { OnOk result (sink.new.files ≡ files.now) }
    ensures marked { OnOk result (sink.new.mark ≡ Some (len files.now)) }
    ensures prefix { OnErr result (entries sink.new.files ≡ take (len sink.new.files) (entries files.now)) }
    ensures unmarked { OnErr result (sink.new.mark ≡ sink.old.mark) }
    ensures unplanned { OnOk result (planned (save_calls files.now) sink.old.failure ≡ None) }
    ensures planned { IfErr result (λ fault. MemoryOr fault
        (IsPlannedWrite (save_calls files.now) sink.old.failure fault)) }
{
    save(files, sink)
}
