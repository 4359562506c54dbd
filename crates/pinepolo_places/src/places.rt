//! Stores, outputs and pictures by path.
ghost use Rattle.std.specs.Prelude.{◌≡◌, ℕ, List, ◌≤◌, IfOk, OnOk, IfErr, IsErrOf};
ghost use Rattle.cs_schema.specs.CatalogData.{CatalogData};
ghost use Rattle.cs_store.specs.Fault.{CountsFault};
ghost use Rattle.cs_store.specs.declared.fault.StoreFault.{StoreFault};

use cs_parallel_io::{BatchSink, SharedSource};
use cs_schema::Catalog;
use cs_store::StoreFault;
use std::alloc::AllocError;

/// Stores, outputs and pictures by path. Places in memory can say by their ghost members what they found and made; those
/// over folders say nothing.
pub trait Places {
    /// A store's files.
    type Store: SharedSource + Drop;

    /// What takes the files of a recovery, which are written side by side where it can.
    type Output: BatchSink + Drop;

    /// A catalog that was read: the state before, the path, the bytes, and the state after.
    ghost reads: { Self → List ℕ → List ℕ → Self → Type 0 };

    /// A catalog that was not read: the state before, the path, why, and the state after.
    ghost misses: { Self → List ℕ → StoreFault → Self → Type 0 };

    /// The files of a store: the state, the path, the catalog, and the store.
    ghost opens: { Self → List ℕ → CatalogData → Self.Store → Type 0 };

    /// An output that was made: the state before, the path, the output, and the state after.
    ghost makes: { Self → List ℕ → Self.Output → Self → Type 0 };

    /// An output that was not made: the state before, the path, why, and the state after.
    ghost denies: { Self → List ℕ → StoreFault → Self → Type 0 };

    /// A picture that was written: the state before, the path, its bytes, and the state after.
    ghost draws: { Self → List ℕ → List ℕ → Self → Type 0 };

    /// How many faults of the device it has met.
    ghost fault_count: { Self → ℕ };

    /// The bytes of the catalog of the store at this path. It fails where there is none.
    fn catalog(&mut self, path: &str) -> Result<Vec<u8>, StoreFault>
        ensures ok { IfOk result (λ bytes. reads self.old path.now bytes.items self.new) }
        ensures err { IfErr result (λ fault. misses self.old path.now fault self.new) }
        ensures device { IsErrOf result StoreFault.Device
            → CountsFault (fault_count self.old) (fault_count self.new) }
        ensures counted { fault_count self.old ≤ fault_count self.new };

    /// The bytes of the catalog at this path, which may be that of a file or of a store.
    fn catalog_or_file(&mut self, path: &str) -> Result<Vec<u8>, StoreFault>
        ensures ok { IfOk result (λ bytes. reads self.old path.now bytes.items self.new) }
        ensures err { IfErr result (λ fault. misses self.old path.now fault self.new) }
        ensures device { IsErrOf result StoreFault.Device
            → CountsFault (fault_count self.old) (fault_count self.new) }
        ensures counted { fault_count self.old ≤ fault_count self.new };

    /// The files of the store at this path, which has this catalog. Nothing is read.
    fn files(&self, path: &str, catalog: &Catalog) -> Result<Self::Store, AllocError>
        ensures { IfOk result (λ store. opens self.now path.now catalog.now store) };

    /// Makes the output at this path, where nothing may be yet.
    fn output(&mut self, path: &str) -> Result<Self::Output, StoreFault>
        ensures ok { IfOk result (λ output. makes self.old path.now output self.new) }
        ensures err { IfErr result (λ fault. denies self.old path.now fault self.new) }
        ensures device { IsErrOf result StoreFault.Device
            → CountsFault (fault_count self.old) (fault_count self.new) }
        ensures counted { fault_count self.old ≤ fault_count self.new };

    /// Writes a picture to a new file at this path, where nothing may be yet.
    fn picture(&mut self, path: &str, bytes: &[u8]) -> Result<(), StoreFault>
        ensures ok { OnOk result (draws self.old path.now bytes.now self.new) }
        ensures device { IsErrOf result StoreFault.Device
            → CountsFault (fault_count self.old) (fault_count self.new) }
        ensures counted { fault_count self.old ≤ fault_count self.new };

    /// How many faults of the device it has met.
    fn faults(&self) -> u64
        ensures { result ≡ fault_count self.now };
}
