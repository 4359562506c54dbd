//! Stores, and what became of them.
use crate::diagnosis_changes::Change;
use cs_schema::samples::{SPLIT_COLUMNS, THREE_PROJECTIONS, TWO_ORDERS};
use test_support::columns::Column;

/// A store of rows that was changed, beside one of other rows.
#[derive(Clone, Copy)]
pub struct Case<'a> {
    pub what: &'a str,
    pub catalog: &'a str,
    pub by_rows: bool,
    pub rows: &'a [Column<'a>],
    pub others: &'a [Column<'a>],
    pub changes: &'a [Change],
    /// How many sites a loss may have, where that is asked.
    pub at_most: Option<u8>,
}

/// Three projections of two segments each on six sites, of rows that differ from the others in each segment.
pub fn three<'a>(what: &'a str, by_rows: bool, changes: &'a [Change]) -> Case<'a> {
    Case {
        what,
        catalog: THREE_PROJECTIONS,
        by_rows,
        rows: &[Column::Ints(&[1, 2, 3, 4]), Column::Ints(&[30, 10, 20, 10])],
        others: &[Column::Ints(&[1, 2, 3, 4]), Column::Ints(&[31, 10, 21, 11])],
        changes,
        at_most: None,
    }
}

/// Two projections that join to one another, and one of all columns, on three sites.
pub fn split<'a>(what: &'a str, by_rows: bool, changes: &'a [Change]) -> Case<'a> {
    Case {
        what,
        catalog: SPLIT_COLUMNS,
        by_rows,
        rows: &[
            Column::Ints(&[1, 2, 3]),
            Column::Ints(&[5, 6, 7]),
            Column::Ints(&[30, 10, 20]),
        ],
        others: &[
            Column::Ints(&[1, 2, 3]),
            Column::Ints(&[5, 6, 7]),
            Column::Ints(&[30, 10, 25]),
        ],
        changes,
        at_most: None,
    }
}

/// Two sites, each with the whole table.
pub fn two<'a>(what: &'a str, changes: &'a [Change]) -> Case<'a> {
    Case {
        what,
        catalog: TWO_ORDERS,
        by_rows: false,
        rows: &[Column::Ints(&[1, 2]), Column::Ints(&[8, 9])],
        others: &[Column::Ints(&[1, 2]), Column::Ints(&[8, 7])],
        changes,
        at_most: None,
    }
}

/// The case, with losses of at most so many sites.
pub fn with_at_most(case: Case<'_>, at_most: u8) -> Case<'_> {
    Case {
        what: case.what,
        catalog: case.catalog,
        by_rows: case.by_rows,
        rows: case.rows,
        others: case.others,
        changes: case.changes,
        at_most: Some(at_most),
    }
}
