//! Why rows have no orders.
ghost use Rattle.std.specs.Prelude.{◌≡◌};
ghost use Rattle.cs_order.specs.declared.fault.OrderFault.TheVariants.{Memory};

use std::alloc::{AllocError, AllocFailed};

/// Why rows have no orders.
#[derive(Clone, Copy, Debug, PartialEq, Eq)]
pub enum OrderFault {
    /// Out of memory.
    Memory,
    /// Two rows have the same primary key.
    Twice,
    /// The range of segment `s` of projection `p` has more than 1,048,576 rows, and no earlier segment has. Numbers are
    /// from 0.
    Full { p: u16, s: u16 },
}

impl From<AllocError> for OrderFault {
    ghost from_gives = { λ _ fault. fault ≡ Memory };

    fn from(_error: AllocError) -> OrderFault {
        OrderFault::Memory
    }
}

impl<T: Drop> From<AllocFailed<T>> for OrderFault {
    ghost from_gives = { λ _ fault. fault ≡ Memory };

    fn from(_error: AllocFailed<T>) -> OrderFault {
        OrderFault::Memory
    }
}
