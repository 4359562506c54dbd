//! Where the tables of a diagnosis differ.
ghost use Rattle.std.specs.Prelude.{◌≡◌, ◌<◌, ◌++◌, ◌∷◌, [], IfOk, OnOk, length, Some};
ghost use Rattle.std.specs.List.{slice_get};
ghost use Rattle.cs_schema.specs.Rows.{IsTable};
ghost use Rattle.cs_diagnosis.specs.Diagnoses.{rows_found};
ghost use Rattle.cs_diagnosis.specs.Disputed.{AreFirstDisputes, AreOfTables, AreAllDisputes, IsSomeDiagnosis};

use crate::diagnosing::Diagnosis;
use crate::tables::FoundTable;
use crate::{Disputes, find_disputes};
use cs_schema::Catalog;
use std::alloc::{AllocError, Global};

/// Where two tables of a diagnosis differ: the indices of the tables, and the disputes with the indices of the rows.
#[derive(Drop)]
pub struct TableDisputes {
    pub first: usize,
    pub second: usize,
    pub disputes: Disputes,
}

/// Where two tables differ. Fails as if memory were refused if they have 2^64 rows or more, which do not fit in memory.
fn disputes_of(
    alloc: Global,
    catalog: &Catalog,
    first: &FoundTable,
    second: &FoundTable,
    at_most: usize,
) -> Result<Disputes, AllocError>
    requires first { IsTable catalog.now (rows_found first.now) }
    requires second { IsTable catalog.now (rows_found second.now) }
    ensures { IfOk result (AreFirstDisputes catalog.now at_most (rows_found first.now) (rows_found second.now)) }
{
    if first.rows().checked_add(second.rows()).is_none() {
        return Err(AllocError);
    }
    find_disputes(
        alloc,
        catalog,
        first.columns.as_slice(),
        second.columns.as_slice(),
        at_most,
    )
}

/// Appends where two tables differ. `first` and `second` are their indices.
fn add_disputes(
    found: &mut Vec<TableDisputes>,
    catalog: &Catalog,
    tables: &[FoundTable],
    first: usize,
    second: usize,
    at_most: usize,
) -> Result<(), AllocError>
    requires places { first < second }
    requires within { second < length tables.now }
    requires tables { (n : _) (t : FoundTable) → slice_get tables.now n ≡ Some t → IsTable catalog.now (rows_found t) }
    ensures { OnOk result ((d : TableDisputes) × (found.new.items ≡ found.old.items ++ d ∷ [])
        × AreOfTables catalog.now tables.now at_most d × (d.first ≡ first) × (d.second ≡ second)) }
{
    let alloc = *found.allocator();
    let (earlier, later) = (&tables[first], &tables[second]);
    let disputes = disputes_of(alloc, catalog, earlier, later, at_most)?;
    found.push(TableDisputes {
        first,
        second,
        disputes,
    })?;
    Ok(())
}

/// Where each two tables of a diagnosis differ: the number of disputes, and the first of them by key, at most
/// `at_most`. Fails only if memory is refused.
pub fn disputed_rows(
    alloc: Global,
    catalog: &Catalog,
    diagnosis: &Diagnosis,
    at_most: usize,
) -> Result<Vec<TableDisputes>, AllocError>
    requires { IsSomeDiagnosis catalog.now diagnosis.now }
    ensures { IfOk result (λ found. AreAllDisputes catalog.now diagnosis.now.tables.items at_most found.items) }
{
    let tables = diagnosis.tables.as_slice();
    let mut found = Vec::new(alloc);
    for second in 0..tables.len() {
        for first in 0..second {
            add_disputes(&mut found, catalog, tables, first, second, at_most)?;
        }
    }
    Ok(found)
}
