//! The tables that a diagnosis finds.
ghost use Rattle.std.specs.Prelude.{◌≡◌};
ghost use Rattle.cs_rows.specs.WalkedView.{AreColumns, count_of};

use cs_schema::Cells;

/// The number of rows of the columns.
fn row_count(columns: &[Cells]) -> usize
    requires { AreColumns columns.now }
    ensures { result ≡ count_of columns.now }
{
    columns[0].len()
}

/// The rows of a table that was found, by primary key: a column of cells for each column of the table.
#[derive(Drop)]
pub struct FoundTable {
    pub columns: Vec<Cells>,
    pub ghost even: { AreColumns columns.items },
}

impl FoundTable {
    ghost use Rattle.std.specs.Prelude.{◌≡◌, length};
    ghost use Rattle.cs_diagnosis.specs.Diagnoses.{rows_found};

    /// The number of rows.
    pub fn rows(&self) -> u64
        ensures { result ≡ length (rows_found self.now) }
    {
        row_count(self.columns.as_slice()) as u64
    }
}
