//! Why a store is not laid out anew.

use crate::differences::Difference;
use crate::load_fault::FullRange;
use cs_rebuild::Fault;

/// Why a store is not laid out under a new catalog.
#[derive(Drop)]
pub enum RelayoutFault {
    /// Out of memory. It may take the place of any other answer.
    Memory,
    /// The first difference between the columns or the primary keys of the catalogs.
    Differs(Difference),
    /// The new catalog's sites do not have every column even if none is lost.
    Unsafe,
    /// Why the surviving files of the old store hold no table.
    Store(Fault),
    /// The first range of the new catalog with too many rows.
    Full(FullRange),
}
