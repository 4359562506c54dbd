//! Where the files of a store are read in parallel.
ghost use Rattle.std.specs.Prelude.{ℕ, List, Option, IfOk, IfErr};
ghost use Rattle.std.specs.Option.{option_map};
ghost use Rattle.cs_schema.specs.declared.file_name.FileName.{FileName};
ghost use Rattle.cs_store.specs.declared.fault.StoreFault.{StoreFault};

use cs_schema::FileName;
use cs_store::StoreFault;
use std::marker::Sync;

/// Files by name, readable by many threads at once. The ghost members of a source in memory say what it has; those of
/// one over a folder say nothing.
pub trait SharedSource: Sync {
    /// A successful read: the source, the name, and the bytes or that there is no such file.
    ghost answers: { Self → FileName → Option (List ℕ) → Type 0 };

    /// A failed read: the source, the name, and why.
    ghost fails: { Self → FileName → StoreFault → Type 0 };

    /// The bytes of the file with this name, or `None` if there is no such file.
    fn read_shared(&self, name: FileName) -> Result<Option<Vec<u8>>, StoreFault>
        ensures ok { IfOk result (λ file. answers self.now name (option_map (λ bytes. bytes.items) file)) }
        ensures err { IfErr result (λ fault. fails self.now name fault) };
}
