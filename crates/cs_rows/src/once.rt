//! The rows of walked parts, each primary key once.
//!
//! Only the keys are concatenated, to find the repeats. Every other cell that remains is copied once, from its part to
//! its column.
ghost use Rattle.std.specs.Prelude.{◌≡◌, ◌<◌, ◌≤◌, ◌*◌, All, IfOk, OnErr, OnOk, count_by, length, map, not};
ghost use Rattle.std.specs.List.{flat_map};
ghost use Rattle.cs_schema.specs.CatalogData.{column};
ghost use Rattle.cs_schema.specs.CatalogRules.{IsCatalog};
ghost use Rattle.cs_schema.specs.Values.{values, kind_of};
ghost use Rattle.cs_schema.specs.Rows.{cell};
ghost use Rattle.cs_rows.specs.Columns.{ColumnsFit, IsColumn};
ghost use Rattle.cs_rows.specs.Repeats.{AreRepeats, unmarked};
ghost use Rattle.cs_rows.specs.RowSteps.{AreRows};
ghost use Rattle.cs_rows.specs.WalkByRows.{without_repeats};
ghost use Rattle.cs_rows.specs.WalkedView.{IsWide};

use crate::joining::{join_column, rows_in, text_size};
use crate::marks::push_unmarked;
use crate::numbers::kind;
use crate::repeats::{find_repeats, find_repeats_alone};
use crate::walked::Walked;
use cs_schema::limits::TEXT_BYTES;
use cs_schema::{Catalog, Cells};
use rayon::prelude::*;
use std::alloc::{AllocError, Global};
use std::thread::Threads;

/// Marks the rows of all parts whose primary key occurs in an earlier row.
fn mark_repeats_in<R: Threads + Sync>(
    rt: &R,
    alloc: Global,
    catalog: &Catalog,
    pieces: &[Walked],
) -> Result<Vec<bool>, AllocError>
    requires { All (λ piece. piece.kinds ≡ map (λ c. c.kind) catalog.now.columns) pieces.now }
    ensures { IfOk result (λ marks. AreRepeats (map (λ row. cell row catalog.now.key) (flat_map (λ piece. piece.rows) pieces.now)) marks.items) }
{
    let keys = join_column(alloc, catalog, pieces, catalog.key_column())?;
    find_repeats(rt, alloc, &keys)
}

/// The number of marks that are not set.
fn count_unmarked(marks: &[bool]) -> usize
    ensures { result ≡ count_by not marks.now }
{
    marks.iter().filter(|mark| !**mark).count()
}

/// An estimate of the number of bytes of the texts of `left` cells of a column, from the mean of the parts. It is at
/// most 255 for each cell.
fn estimate_text(catalog: &Catalog, pieces: &[Walked], left: usize, c: usize) -> usize
    requires column { c < length catalog.now.columns }
    requires kinds { All (λ piece. piece.kinds ≡ map (λ c. c.kind) catalog.now.columns) pieces.now }
    ensures { result ≤ 255 * left }
{
    let rows = rows_in(pieces);
    if rows == 0 {
        return 0;
    }
    let mean = text_size(catalog, pieces, c) / rows;
    let size = mean.saturating_add(1).saturating_mul(left);
    size.min(left.saturating_mul(TEXT_BYTES))
}

/// The unmarked cells of one column of all parts, one part after the other. Room is reserved for `left` of them.
fn join_unmarked(
    alloc: Global,
    catalog: &Catalog,
    pieces: &[Walked],
    marks: &[bool],
    left: usize,
    c: usize,
) -> Result<Cells, AllocError>
    requires column { c < length catalog.now.columns }
    requires kinds { All (λ piece. piece.kinds ≡ map (λ c. c.kind) catalog.now.columns) pieces.now }
    requires marks { length marks.now ≡ length (flat_map (λ piece. piece.rows) pieces.now) }
    ensures { IfOk result (IsColumn catalog.now (unmarked marks.now (flat_map (λ piece. piece.rows) pieces.now)) c) }
{
    let mut joined = Cells::new(alloc, kind(catalog, c));
    joined.reserve(left, estimate_text(catalog, pieces, left, c))?;
    let mut rest = marks;
    for piece in pieces {
        let (here, later) = rest.split_at(piece.rows());
        push_unmarked(&mut joined, piece.column(c), here)?;
        rest = later;
    }
    Ok(joined)
}

/// The columns of the unmarked rows of all parts, made in parallel.
fn unmarked_columns<R: Threads + Sync>(
    rt: &R,
    alloc: Global,
    catalog: &Catalog,
    pieces: &[Walked],
    marks: &[bool],
) -> Result<Vec<Cells>, AllocError>
    requires kinds { All (λ piece. piece.kinds ≡ map (λ c. c.kind) catalog.now.columns) pieces.now }
    requires marks { length marks.now ≡ length (flat_map (λ piece. piece.rows) pieces.now) }
    ensures fit { IfOk result (λ columns. ColumnsFit catalog.now columns.items) }
    ensures rows { IfOk result (λ columns. AreRows catalog.now (unmarked marks.now (flat_map (λ piece. piece.rows) pieces.now)) columns.items) }
    ensures wide { All IsWide pieces.now }
    ensures rules { IsCatalog catalog.now }
{
    // for its clause on the width of the rows
    let _rows = rows_in(pieces);
    let left = count_unmarked(marks);
    (0..catalog.column_count())
        .into_par_iter()
        // each column is worth a thread
        .with_min_len(1)
        .map(
            |c: usize| -> Result<Cells, AllocError>
                requires column { c < length catalog.now.columns }
                requires kinds { All (λ piece. piece.kinds ≡ map (λ c. c.kind) catalog.now.columns) pieces.now }
                requires marks { length marks.now ≡ length (flat_map (λ piece. piece.rows) pieces.now) }
                ensures { IfOk result (IsColumn catalog.entry.now (unmarked marks.entry.now (flat_map (λ piece. piece.rows) pieces.entry.now)) c) }
            { join_unmarked(alloc, catalog, pieces, marks, left, c) },
        )
        .collect::<Result<Vec<Cells>, AllocError>>(rt, alloc)?
}

/// Concatenates the rows of all parts without each row whose primary key occurs in an earlier row, in O(n log n) steps
/// with threads. Only the key columns are concatenated whole. Fails only if memory is refused.
pub fn join_once<R: Threads + Sync>(
    rt: &R,
    alloc: Global,
    catalog: &Catalog,
    pieces: &[Walked],
) -> Result<Walked, AllocError>
    requires { All (λ piece. piece.kinds ≡ map (λ c. c.kind) catalog.now.columns) pieces.now }
    ensures kinds { IfOk result (λ walked. walked.kinds ≡ map (λ c. c.kind) catalog.now.columns) }
    ensures rows { IfOk result (λ walked. walked.rows ≡ without_repeats catalog.now (flat_map (λ piece. piece.rows) pieces.now)) }
{
    let marks = mark_repeats_in(rt, alloc, catalog, pieces)?;
    let columns = unmarked_columns(rt, alloc, catalog, pieces, &marks)?;
    Ok(Walked::from_columns(columns))
}

/// The columns of the unmarked rows of a walk.
fn columns_left(
    alloc: Global,
    catalog: &Catalog,
    walked: &Walked,
    marks: &[bool],
) -> Result<Vec<Cells>, AllocError>
    requires kinds { walked.now.kinds ≡ map (λ c. c.kind) catalog.now.columns }
    requires marks { length marks.now ≡ length walked.now.rows }
    ensures fit { IfOk result (λ columns. ColumnsFit catalog.now columns.items) }
    ensures rows { IfOk result (λ columns. AreRows catalog.now (unmarked marks.now walked.now.rows) columns.items) }
    ensures wide { IsWide walked.now }
    ensures rules { IsCatalog catalog.now }
{
    // for its clause on the width of the rows
    let _rows = walked.rows();
    let mut columns = Vec::new(alloc);
    for c in 0..catalog.column_count() {
        let mut left = Cells::new(alloc, kind(catalog, c));
        push_unmarked(&mut left, walked.column(c), marks)?;
        columns.push(left)?;
    }
    Ok(columns)
}

/// The rows of a walk without each row whose primary key occurs in an earlier one, in O(n log n) steps in this thread.
fn first_rows(alloc: Global, catalog: &Catalog, walked: &Walked) -> Result<Walked, AllocError>
    requires { walked.now.kinds ≡ map (λ c. c.kind) catalog.now.columns }
    ensures kinds { IfOk result (λ left. left.kinds ≡ walked.now.kinds) }
    ensures rows { IfOk result (λ left. left.rows ≡ without_repeats catalog.now walked.now.rows) }
{
    let keys = walked.column(catalog.key_column());
    let marks = find_repeats_alone(alloc, keys)?;
    let columns = columns_left(alloc, catalog, walked, marks.as_slice())?;
    Ok(Walked::from_columns(columns))
}

impl Walked {
    /// Removes each row whose primary key occurs in an earlier row, in O(n log n) steps. If memory is refused, nothing
    /// changes.
    ///
    /// Runs in this thread; `join_once` does the same for several walks with threads.
    pub fn once(&mut self, catalog: &Catalog) -> Result<(), AllocError>
        requires { self.old.kinds ≡ map (λ c. c.kind) catalog.now.columns }
        ensures kinds { self.new.kinds ≡ self.old.kinds }
        ensures ok { OnOk result (self.new.rows ≡ without_repeats catalog.now self.old.rows) }
        ensures err { OnErr result (self.new ≡ self.old) }
    {
        let alloc = self.allocator();
        let left = first_rows(alloc, catalog, self)?;
        *self = left;
        Ok(())
    }
}
