//! Where stores are found and outputs are made.
ghost use Rattle.std.specs.Prelude.{◌≡◌, ℕ, List, ◌≤◌, IfOk, IfErr, IsErrOf};
ghost use Rattle.cs_store.specs.Fault.{CountsFault};
ghost use Rattle.cs_store.specs.declared.fault.StoreFault.{StoreFault};

use cs_board::Gate;
use cs_parallel_io::{BatchSink, SharedSource};
use cs_store::{Source, StoreFault};
use std::marker::Sync;

/// Stores and outputs by path. The ghost members of places in memory say what they found and made; those of folders say
/// nothing.
pub trait Places {
    /// A store's files, which are read in parallel.
    type Store: Source + SharedSource + Drop;

    /// Takes the files of a recovery, in parallel if it can.
    type Output: BatchSink + Drop;

    /// Observes the pieces of a command's work.
    type Watch: Gate + Sync;

    /// A store that was found: the state before, the path, the bytes of the catalog, the store, and the state after.
    ghost finds: { Self → List ℕ → List ℕ → Self.Store → Self → Type 0 };

    /// An output that was made: the state before, the path, the output, and the state after.
    ghost makes: { Self → List ℕ → Self.Output → Self → Type 0 };

    /// A store that was not found: the state before, the path, why, and the state after.
    ghost misses: { Self → List ℕ → StoreFault → Self → Type 0 };

    /// An output that was not made: the state before, the path, why, and the state after.
    ghost denies: { Self → List ℕ → StoreFault → Self → Type 0 };

    /// The number of faults of the device so far.
    ghost fault_count: { Self → ℕ };

    /// The bytes of the catalog of the store at this path, and the store. Fails if the catalog cannot be read.
    fn store(&mut self, path: &str) -> Result<(Vec<u8>, Self::Store), StoreFault>
        ensures ok { IfOk result (λ found. finds self.old path.now found.0.items found.1 self.new) }
        ensures err { IfErr result (λ fault. misses self.old path.now fault self.new) }
        ensures device { IsErrOf result StoreFault.Device
            → CountsFault (fault_count self.old) (fault_count self.new) }
        ensures counted { fault_count self.old ≤ fault_count self.new };

    /// Makes the output at this path, where nothing may exist yet.
    fn output(&mut self, path: &str) -> Result<Self::Output, StoreFault>
        ensures ok { IfOk result (λ output. makes self.old path.now output self.new) }
        ensures err { IfErr result (λ fault. denies self.old path.now fault self.new) }
        ensures device { IsErrOf result StoreFault.Device
            → CountsFault (fault_count self.old) (fault_count self.new) }
        ensures counted { fault_count self.old ≤ fault_count self.new };

    /// Observes each piece as it begins.
    fn watch(&self) -> &Self::Watch;

    /// The number of faults of the device so far.
    fn faults(&self) -> u64
        ensures { result ≡ fault_count self.now };
}
