//! What stands in a store's folder.
ghost use Rattle.std.specs.Prelude.{ℕ, List, Option, ◌≤◌, map, string_bytes, IfOk, IsErrOf};
ghost use Rattle.cs_store.specs.Fault.{CountsFault};
ghost use Rattle.cs_shelf.specs.declared.work.WorkKind.{WorkKind};

use crate::places::Places;
use cs_shelf::{Pending, WorkKind};
use cs_store::StoreFault;
use std::alloc::AllocError;

/// Places where it can be asked what stands in a store's folder.
pub trait Listings: Places {
    /// What is compared of a store before and after it is read.
    type Stamp: Drop;

    /// A store's folder that was listed: the state before, the path, the names, and the state after.
    ghost lists: { Self → List ℕ → List (List ℕ) → Self → Type 0 };

    /// Which kind of work on a store was left unfinished, if any: the state, the path, and the kind.
    ghost leaves: { Self → List ℕ → Option WorkKind → Type 0 };

    /// The names of what stands in the folder of the store at this path, ascending.
    fn names(&mut self, path: &str) -> Result<Vec<String>, StoreFault>
        ensures ok { IfOk result (λ names. lists self.old path.now (map string_bytes names.items) self.new) }
        ensures device { IsErrOf result StoreFault.Device
            → CountsFault (Self.fault_count self.old) (Self.fault_count self.new) }
        ensures counted { Self.fault_count self.old ≤ Self.fault_count self.new };

    /// Whether a restore or an undo of the store at this path was left unfinished, so that `RESTORING` stands in its folder,
    /// and which. A run that is at work leaves nothing unfinished.
    fn unfinished(&self, path: &str) -> Result<Option<WorkKind>, AllocError>
        ensures { IfOk result (leaves self.now path.now) };

    /// The work on the store at this path that is not finished, if any, and whether a run is at it.
    fn pending(&self, path: &str) -> Result<Option<Pending>, AllocError>;

    /// What is compared of the store at this path before and after it is read: the record of work on it, the last number of
    /// what it keeps, and the length and the last change of each file.
    fn stamp(&self, path: &str) -> Result<Self::Stamp, AllocError>;

    /// Whether the store at this path is as it was.
    fn is_unchanged(&self, path: &str, before: &Self::Stamp) -> Result<bool, AllocError>;
}
