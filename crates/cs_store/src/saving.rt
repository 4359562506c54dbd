//! Writing a file set, then the mark that it is complete.
ghost use Rattle.std.specs.Prelude.{◌≡◌, ◌≤◌, Option, OnOk, IfErr, IsErrOf};
ghost use Rattle.std.specs.FinMap.{entries};
ghost use Rattle.cs_schema.specs.declared.file_name.FileName.{FileName};
ghost use Rattle.cs_store.specs.Fault.{CountsFault};
ghost use Rattle.cs_store.specs.Save.{Saves, StopsSaving, refusal as refusal_at};

use crate::{Fault, FileSet, Sink, StoreFault};
use cs_schema::FileName;

/// Puts each file, in the order of names, then sets the mark with the number of files.
///
/// Stops at the first call that fails: `Write` names that file, or no file for the mark.
pub fn save<K: Sink>(files: &FileSet, sink: &mut K) -> Result<(), Fault>
    ensures ok { OnOk result (Saves K.takes K.marks (entries files.now) sink.old sink.new) }
    ensures err { IfErr result (λ fault.
        StopsSaving K.takes K.refuses (entries files.now) sink.old fault sink.new) }
    ensures device { (at : Option FileName) → IsErrOf result (Fault.Write at)
        → CountsFault (K.fault_count sink.old) (K.fault_count sink.new) }
    ensures counted { K.fault_count sink.old ≤ K.fault_count sink.new }
{
    for (name, bytes) in files.iter() {
        match sink.put(*name, bytes.as_slice()) {
            Ok(()) => {}
            Err(fault) => return Err(refusal(Some(*name), fault)),
        }
    }
    match sink.mark(files.len() as u64) {
        Ok(()) => Ok(()),
        Err(fault) => Err(refusal(None, fault)),
    }
}

/// The answer of a save that fails at this file, or at the mark if no file is named.
fn refusal(at: Option<FileName>, fault: StoreFault) -> Fault
    ensures { result ≡ refusal_at at fault }
{
    match fault {
        StoreFault::Memory => Fault::Memory,
        StoreFault::Device => Fault::Write(at),
    }
}
