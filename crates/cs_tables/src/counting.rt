//! Numbers of rows.
ghost use Rattle.std.specs.Prelude.{◌≡◌};
ghost use Rattle.cs_rows.specs.WalkedView.{count_of};

use cs_schema::Cells;

/// The number of rows of the columns.
pub fn count_rows(cells: &[Cells]) -> usize
    ensures { result ≡ count_of cells.now }
{
    match cells.first() {
        Some(first) => first.len(),
        None => 0,
    }
}
