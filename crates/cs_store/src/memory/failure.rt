//! Planned failures.
ghost use Rattle.std.specs.Prelude.{◌≡◌, ◌≤◌, Some};
ghost use Rattle.cs_store.specs.Fault.{CountsFault};

use crate::StoreFault;

/// A planned failure: `after` calls succeed, the next one fails with this fault, and later ones succeed again.
#[derive(Clone, Copy, Debug, PartialEq, Eq)]
pub struct Failure {
    pub after: u64,
    pub fault: StoreFault,
}

impl Failure {
    ghost use Rattle.cs_store.specs.Plan.{due, later};

    /// The fault of this call, if the plan makes it fail. Faults of the device are counted.
    pub(super) fn strike(plan: &mut Option<Failure>, faults: &mut u64) -> Option<StoreFault>
        ensures fault { result ≡ due plan.old }
        ensures plan { plan.new ≡ later plan.old }
        ensures device { result ≡ Some StoreFault.Device → CountsFault faults.old faults.new }
        ensures counted { faults.old ≤ faults.new }
    {
        match *plan {
            None => None,
            Some(Failure { after: 0, fault }) => {
                *plan = None;
                if fault == StoreFault::Device {
                    *faults = faults.saturating_add(1);
                }
                Some(fault)
            }
            Some(Failure { after, fault }) => {
                *plan = Some(Failure {
                    after: after - 1,
                    fault,
                });
                None
            }
        }
    }
}
