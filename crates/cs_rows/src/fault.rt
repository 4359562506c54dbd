//! Why a walk returns no rows.
ghost use Rattle.std.specs.Prelude.{◌≡◌};
ghost use Rattle.cs_rows.specs.declared.fault.WalkFault.TheVariants.{Memory};

use std::alloc::{AllocError, AllocFailed};

/// Why a walk returns no rows.
#[derive(Debug, Clone, Copy, PartialEq, Eq)]
pub enum WalkFault {
    /// Out of memory.
    Memory,
    /// The join indexes lead from this row to no row. It is the first such row of those walked from. Its numbers are
    /// those of its projection, its segment, and its position in the segment's image, each from 0.
    Astray { p: u16, s: u16, row: u32 },
}

impl From<AllocError> for WalkFault {
    ghost from_gives = { λ _ e. e ≡ Memory };

    fn from(_e: AllocError) -> Self {
        WalkFault::Memory
    }
}

impl<T: Drop> From<AllocFailed<T>> for WalkFault {
    ghost from_gives = { λ _ e. e ≡ Memory };

    fn from(_e: AllocFailed<T>) -> Self {
        WalkFault::Memory
    }
}
