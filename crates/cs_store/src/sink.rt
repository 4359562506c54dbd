//! Where the files of a store are written.
ghost use Rattle.std.specs.Prelude.{◌≡◌, ℕ, List, Option, Some, None, ◌≤◌, OnOk, IfErr, IsErrOf};
ghost use Rattle.cs_store.specs.Fault.{CountsFault};
ghost use Rattle.cs_schema.specs.declared.file_name.FileName.{FileName};
ghost use Rattle.cs_store.specs.declared.fault.StoreFault.{StoreFault};

use crate::StoreFault;
use cs_schema::FileName;

/// Takes files, then a mark that all are there. The ghost members of a sink in memory say what it took; those of one
/// over a folder say nothing.
pub trait Sink {
    /// A successful put: the state before, the name, the bytes, and the state after.
    ghost takes: { Self → FileName → List ℕ → Self → Type 0 };

    /// A successful mark: the state before, the number of files, and the state after.
    ghost marks: { Self → ℕ → Self → Type 0 };

    /// A failed put, with its name, or a failed mark, with none: the state before, why, and the state after. Part of
    /// the file may have been written.
    ghost refuses: { Self → Option FileName → StoreFault → Self → Type 0 };

    /// The number of faults of the device so far.
    ghost fault_count: { Self → ℕ };

    /// Writes the whole file.
    fn put(&mut self, name: FileName, bytes: &[u8]) -> Result<(), StoreFault>
        ensures ok { OnOk result (takes self.old name bytes.now self.new) }
        ensures err { IfErr result (λ fault. refuses self.old (Some name) fault self.new) }
        ensures device { IsErrOf result StoreFault.Device
            → CountsFault (fault_count self.old) (fault_count self.new) }
        ensures counted { fault_count self.old ≤ fault_count self.new };

    /// Sets the mark, with the number of files that were written.
    fn mark(&mut self, files: u64) -> Result<(), StoreFault>
        ensures ok { OnOk result (marks self.old files self.new) }
        ensures err { IfErr result (λ fault. refuses self.old None fault self.new) }
        ensures device { IsErrOf result StoreFault.Device
            → CountsFault (fault_count self.old) (fault_count self.new) }
        ensures counted { fault_count self.old ≤ fault_count self.new };

    /// The number of faults of the device so far.
    fn faults(&self) -> u64
        ensures { result ≡ fault_count self.now };
}
