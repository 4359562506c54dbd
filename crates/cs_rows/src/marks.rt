//! Marks of rows, and copying cells without those of marked rows.
ghost use Rattle.std.specs.Prelude.{◌≡◌, ◌≤◌, ◌-◌, ◌++◌, false, IfOk, OnOk, length, take, drop, replicate};
ghost use Rattle.cs_schema.specs.Values.{values, kind_of};
ghost use Rattle.cs_rows.specs.Repeats.{unmarked};

use cs_schema::Cells;
use std::alloc::{AllocError, Global};

/// A mark for each row, none set.
pub(crate) fn no_marks(alloc: Global, count: usize) -> Result<Vec<bool>, AllocError>
    ensures { IfOk result (λ v. v.items ≡ replicate count false) }
{
    let mut marks = Vec::with_capacity(alloc, count)?;
    for _row in 0..count {
        marks.push(false)?;
    }
    Ok(marks)
}

/// Appends copies of the cells `from..to` of another column.
fn push_run(left: &mut Cells, cells: &Cells, from: usize, to: usize) -> Result<(), AllocError>
    requires kind { kind_of cells.now ≡ kind_of left.old }
    requires order { from ≤ to }
    requires within { to ≤ length (values cells.now) }
    ensures kind { kind_of left.new ≡ kind_of left.old }
    ensures cells { OnOk result (values left.new ≡ values left.old ++ take (to - from) (drop from (values cells.now))) }
{
    if from == to {
        return Ok(());
    }
    left.extend(cells, from, to)
}

/// Appends a copy of each unmarked cell of another column, in order. Cells between two marked ones are copied together.
pub(crate) fn push_unmarked(
    left: &mut Cells,
    cells: &Cells,
    marks: &[bool],
) -> Result<(), AllocError>
    requires kind { kind_of cells.now ≡ kind_of left.old }
    requires marks { length marks.now ≡ length (values cells.now) }
    ensures kind { kind_of left.new ≡ kind_of left.old }
    ensures cells { OnOk result (values left.new ≡ values left.old ++ unmarked marks.now (values cells.now)) }
{
    // the first cell that is still to be copied
    let mut from = 0;
    for at in 0..marks.len() {
        if marks[at] {
            push_run(left, cells, from, at)?;
            from = at + 1;
        }
    }
    push_run(left, cells, from, marks.len())
}
