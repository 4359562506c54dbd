//! Where the columns of found rows are read.
//!
//! They are looked up once for consecutive rows that were found through the same projections.
ghost use Rattle.std.specs.Prelude.{◌≡◌, ◌<◌, ◌↔◌, ◌&&◌, Bool, ℕ, length, true, All, IfOk, OnOk, IsTrue, MatchOption, None};
ghost use Rattle.std.specs.List.{find};
ghost use Rattle.cs_schema.specs.CatalogData.{CatalogData};
ghost use Rattle.cs_safety.specs.Paths.{holds_column};
ghost use Rattle.cs_rows.specs.WalkByRows.{numbers_of};
ghost use Rattle.cs_rows.specs.RowSteps.{IsSource, AreSources, AreColumnSources, have_all};
ghost use Rattle.cs_rows.specs.Superprojections.{is_found_before};

use crate::catalog_of::{columns_of, has_all_columns, key_column};
use crate::numbers::place_in;
use crate::survivors::Survivors;
use std::alloc::{AllocError, Global};

/// Where a column of a found row is read: the index of a reached row, and the column's index in that row's projection.
#[derive(Clone, Copy)]
pub(crate) struct Source {
    pub(crate) reached: usize,
    pub(crate) place: usize,
}

/// Whether rows found through some projections are to be returned, and where each column is read if they are.
#[derive(Drop)]
pub(crate) struct ColumnSources {
    projections: Vec<u16>,
    pub(crate) sources: Vec<Source>,
    pub(crate) given: bool,
}

/// Where a column is read: in the first of the projections that has it, if any.
fn first_source(survivors: &Survivors<'_>, projections: &[u16], c: usize) -> Option<Source>
    requires { All (λ p. p < length survivors.now.catalog.projections) projections.now }
    ensures { MatchOption result (find (λ p. holds_column survivors.now.catalog p c) projections.now ≡ None)
        (IsSource survivors.now.catalog projections.now c) }
{
    for at in 0..projections.len() {
        let columns = columns_of(survivors, projections[at]);
        let place = place_in(columns, c);
        if place < columns.len() {
            return Some(Source { reached: at, place });
        }
    }
    None
}

/// Finds where each column is read. Returns false if the projections lack a column.
fn find_sources(survivors: &Survivors<'_>, projections: &[u16], sources: &mut Vec<Source>) -> bool
    requires there { All (λ p. p < length survivors.now.catalog.projections) projections.now }
    requires room { length sources.old.items ≡ length survivors.now.catalog.columns }
    ensures room { length sources.new.items ≡ length survivors.now.catalog.columns }
    ensures full { result ≡ have_all survivors.now.catalog projections.now }
    ensures sources { result ≡ true → AreSources survivors.now.catalog projections.now sources.new.items (length survivors.now.catalog.columns) }
{
    for c in 0..sources.len() {
        match first_source(survivors, projections, c) {
            Some(source) => sources[c] = source,
            None => return false,
        }
    }
    true
}

/// Whether the key is read in a superprojection that precedes the projection the walk starts from. The walk from the
/// row there comes earlier and finds that key too.
fn is_found_before(survivors: &Survivors<'_>, projections: &[u16], key: Source) -> bool
    requires there { All (λ p. p < length survivors.now.catalog.projections) projections.now }
    requires key { IsSource survivors.now.catalog projections.now survivors.now.catalog.key key }
    ensures { result ≡ is_found_before survivors.now.catalog projections.now }
{
    let q = projections[key.reached];
    q < projections[0] && has_all_columns(survivors, q)
}

/// Whether rows found through these projections are left out: with `fresh_only`, if an earlier walk finds them too.
fn is_left_out(
    survivors: &Survivors<'_>,
    projections: &[u16],
    key: Source,
    fresh_only: bool,
) -> bool
    requires there { All (λ p. p < length survivors.now.catalog.projections) projections.now }
    requires key { IsSource survivors.now.catalog projections.now survivors.now.catalog.key key }
    ensures { result ≡ (fresh_only && is_found_before survivors.now.catalog projections.now) }
{
    fresh_only && is_found_before(survivors, projections, key)
}

/// Whether the rows were reached in exactly these projections, in this order.
fn are_in(reached: &[(u16, (u16, u32))], projections: &[u16]) -> bool
    ensures { IsTrue result ↔ (numbers_of reached.now ≡ projections.now) }
{
    if reached.len() != projections.len() {
        return false;
    }
    for at in 0..reached.len() {
        if reached[at].0 != projections[at] {
            return false;
        }
    }
    true
}

/// Lists the projections in which rows were reached.
fn list_projections(
    projections: &mut Vec<u16>,
    reached: &[(u16, (u16, u32))],
) -> Result<(), AllocError>
    ensures { OnOk result (projections.new.items ≡ numbers_of reached.now) }
{
    projections.clear();
    for row in reached {
        projections.push(row.0)?;
    }
    Ok(())
}

impl ColumnSources {
    /// Room for `projections` projections and `columns` columns. No projection is listed yet.
    pub(crate) fn new(alloc: Global, projections: usize, columns: usize) -> Result<Self, AllocError>
        requires { 0 < columns }
        ensures { IfOk result (λ s. (fresh_only : Bool) (C : CatalogData) → length C.columns ≡ columns → AreColumnSources fresh_only C s) }
    {
        let mut sources = Vec::with_capacity(alloc, columns)?;
        for _column in 0..columns {
            sources.push(Source {
                reached: 0,
                place: 0,
            })?;
        }
        Ok(ColumnSources {
            projections: Vec::with_capacity(alloc, projections)?,
            sources,
            given: false,
        })
    }

    /// Prepares for the rows that were reached. Looks nothing up if the previous rows were reached in the same
    /// projections.
    pub(crate) fn update(
        &mut self,
        survivors: &Survivors<'_>,
        reached: &[(u16, (u16, u32))],
        fresh_only: bool,
    ) -> Result<(), AllocError>
        requires there { All (λ row. row.0 < length survivors.now.catalog.projections) reached.now }
        requires sources { AreColumnSources fresh_only survivors.now.catalog self.old }
        ensures sources { OnOk result (AreColumnSources fresh_only survivors.now.catalog self.new) }
        ensures projections { OnOk result (self.new.projections.items ≡ numbers_of reached.now) }
    {
        if are_in(reached, self.projections.as_slice()) {
            return Ok(());
        }
        list_projections(&mut self.projections, reached)?;
        let projections = self.projections.as_slice();
        self.given = false;
        if find_sources(survivors, projections, &mut self.sources) {
            let key = self.sources[key_column(survivors)];
            self.given = !is_left_out(survivors, projections, key, fresh_only);
        }
        Ok(())
    }
}
