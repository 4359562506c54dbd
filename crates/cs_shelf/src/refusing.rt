//! The fault for a refusal of a shelf.
ghost use Rattle.std.specs.Prelude.{◌≡◌};
ghost use Rattle.cs_store.specs.Save.{refusal};

use cs_schema::FileName;
use cs_store::{Fault, StoreFault};

/// The fault for a refusal at this file, or at the sync if no file is given.
pub fn write_fault(at: Option<FileName>, fault: StoreFault) -> Fault
    ensures { result ≡ refusal at fault }
{
    match fault {
        StoreFault::Memory => Fault::Memory,
        StoreFault::Device => Fault::Write(at),
    }
}
