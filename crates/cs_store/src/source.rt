//! Where the files of a store are read.
ghost use Rattle.std.specs.Prelude.{◌≡◌, ℕ, List, Option, ◌≤◌, IfOk, IfErr, IsErrOf};
ghost use Rattle.std.specs.Option.{option_map};
ghost use Rattle.cs_store.specs.Fault.{CountsFault};
ghost use Rattle.cs_schema.specs.declared.file_name.FileName.{FileName};
ghost use Rattle.cs_store.specs.declared.fault.StoreFault.{StoreFault};

use crate::StoreFault;
use cs_schema::FileName;

/// Files by name. The ghost members of a source in memory say what it has; those of one over a folder say nothing.
pub trait Source {
    /// A successful read: the state before, the name, the bytes or that there is no such file, and the state after.
    ghost gives: { Self → FileName → Option (List ℕ) → Self → Type 0 };

    /// A failed read: the state before, the name, why, and the state after.
    ghost refuses: { Self → FileName → StoreFault → Self → Type 0 };

    /// The number of faults of the device so far.
    ghost fault_count: { Self → ℕ };

    /// The bytes of the file with this name, or `None` if there is no such file.
    fn read(&mut self, name: FileName) -> Result<Option<Vec<u8>>, StoreFault>
        ensures ok { IfOk result (λ file.
            gives self.old name (option_map (λ bytes. bytes.items) file) self.new) }
        ensures err { IfErr result (λ fault. refuses self.old name fault self.new) }
        ensures device { IsErrOf result StoreFault.Device
            → CountsFault (fault_count self.old) (fault_count self.new) }
        ensures counted { fault_count self.old ≤ fault_count self.new };

    /// The number of faults of the device so far.
    fn faults(&self) -> u64
        ensures { result ≡ fault_count self.now };
}
