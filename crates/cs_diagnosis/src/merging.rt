//! The rows in which two tables differ, found in one pass over both.
ghost use Rattle.std.specs.Prelude.{◌≡◌, ◌+◌, ◌-◌, ◌^◌, ◌<◌, ◌∷◌, ◌++◌, [], List, IfOk, OnOk, length, take};
ghost use Rattle.cs_rows.specs.WalkedView.{count_of};
ghost use Rattle.cs_diagnosis.specs.Columns.{IsTableIn, rows_in};
ghost use Rattle.cs_diagnosis.specs.Disputes.{AreDisputes};
ghost use Rattle.cs_diagnosis.specs.declared.merging.Dispute.{Dispute as DisputeData};

use crate::comparing::{next_of, row_count, same_row};
use cs_schema::{Catalog, Cells};
use std::alloc::{AllocError, Global};
use std::cmp::Ordering;

/// A key at which two tables differ: the index of the row with that key in each table that has it.
#[derive(Clone, Copy, Debug)]
pub struct Dispute {
    pub first: Option<usize>,
    pub second: Option<usize>,
}

/// The number of disputes of two tables, and the first of them by key.
#[derive(Drop)]
pub struct Disputes {
    pub count: u64,
    pub rows: Vec<Dispute>,
}

/// Counts a dispute, and stores it if fewer than `at_most` are stored.
fn keep(found: &mut Disputes, dispute: Dispute, at_most: usize) -> Result<(), AllocError>
    requires { found.old.count < 2 ^ 64 - 1 }
    ensures count { OnOk result (found.new.count ≡ found.old.count + 1) }
    ensures rows { OnOk result ((all : List DisputeData) → length all ≡ found.old.count
        → found.old.rows.items ≡ take at_most all → found.new.rows.items ≡ take at_most (all ++ dispute ∷ [])) }
{
    if found.rows.len() < at_most {
        found.rows.push(dispute)?;
    }
    found.count += 1;
    Ok(())
}

/// The rows in which two tables of one catalog differ, by key: their number, and the first `at_most` of them.
///
/// Takes time linear in the rows of both, and memory for at most `at_most` disputes.
pub fn find_disputes(
    alloc: Global,
    catalog: &Catalog,
    first: &[Cells],
    second: &[Cells],
    at_most: usize,
) -> Result<Disputes, AllocError>
    requires first { IsTableIn catalog.now first.now }
    requires second { IsTableIn catalog.now second.now }
    requires few { count_of first.now + count_of second.now < 2 ^ 64 }
    ensures { IfOk result (λ found. (all : List DisputeData)
        × AreDisputes catalog.now.key (rows_in first.now) (rows_in second.now) all × (found.count ≡ length all)
        × (found.rows.items ≡ take at_most all)) }
{
    let rows = row_count(catalog, first);
    let others = row_count(catalog, second);
    let mut found = Disputes {
        count: 0,
        rows: Vec::new(alloc),
    };
    let mut i = 0;
    let mut j = 0;
    while i < rows || j < others {
        match next_of(catalog, first, i, second, j) {
            Ordering::Less => {
                keep(
                    &mut found,
                    Dispute {
                        first: Some(i),
                        second: None,
                    },
                    at_most,
                )?;
                i += 1;
            }
            Ordering::Greater => {
                keep(
                    &mut found,
                    Dispute {
                        first: None,
                        second: Some(j),
                    },
                    at_most,
                )?;
                j += 1;
            }
            Ordering::Equal => {
                if !same_row(catalog, first, i, second, j) {
                    keep(
                        &mut found,
                        Dispute {
                            first: Some(i),
                            second: Some(j),
                        },
                        at_most,
                    )?;
                }
                i += 1;
                j += 1;
            }
        }
    }
    Ok(found)
}
