//! Few cells, for which bitmaps would take more memory than the cells themselves.
ghost use Rattle.std.specs.Prelude.{◌≡◌, ◌-◌, ◌≤◌, length, take, drop, IfOk};

use crate::cell::Cell;
use crate::column::Column;
use std::alloc::{AllocError, Global};

/// The largest number of cells that are stored as they are.
pub(crate) const FEW: usize = 16;

/// At most 16 cells.
#[derive(Drop)]
pub(crate) struct FewCells<C> {
    pub(crate) cells: Vec<C>,
    ghost few: { length cells.items ≤ 16 },
}

/// Copies of the few cells `from..to` of a column.
pub(crate) fn copies<C: Cell, L: Column<C>>(
    alloc: Global,
    column: &L,
    from: usize,
    to: usize,
) -> Result<FewCells<C>, AllocError>
    requires order { from ≤ to }
    requires within { to ≤ length (L.cells column.now) }
    requires few { to - from ≤ 16 }
    ensures { IfOk result (λ few. few.cells.items ≡ take (to - from) (drop from (L.cells column.now))) }
{
    let mut few = Vec::with_capacity(alloc, to - from)?;
    for at in from..to {
        few.push(column.cell(at))?;
    }
    Ok(FewCells { cells: few })
}
