//! Safety by rows: for each possible row, the set of projections whose segment with it is not lost.
//!
//! A family of sets is an array of flags indexed by the sets' bits. Columns are taken one after the other: the family
//! after some columns has the sets of projections sorted first by one of those. So one value meets all cuts on a
//! column, of whatever projection.
ghost use Rattle.std.specs.Prelude.{◌≡◌, ℕ, ◌+◌, ◌<◌, ◌↔◌, IsTrue, true, false, length};
ghost use Rattle.cs_schema.specs.Values.{IsOfKind, values};
ghost use Rattle.cs_schema.specs.CatalogData.{projection, column};
ghost use Rattle.cs_schema.specs.CatalogRules.{IsCatalog};
ghost use Rattle.cs_safety.specs.Safety.{IsSafeByRows};
ghost use Rattle.cs_safety.specs.SafetyCuts.{first_sort};
ghost use Rattle.cs_safety.specs.Reach.{IsGraphOf};
ghost use Rattle.cs_safety.specs.RowSets.{IsKept, AreLeft, IsGrown, IsGrowing, StaysIn, HasValue, HasCuts, among};

use crate::graph::Graph;
use crate::sets::Projections;
use crate::{graph, reach, sets};
use cs_schema::{Catalog, Cells, Loss, Value};

/// A family of sets of projections.
type Family = [bool; 256];

/// The column by which a projection is sorted first.
fn first_sort_of(catalog: &Catalog, p: u8) -> u8
    requires { p < length catalog.now.projections }
    ensures { result ≡ first_sort catalog.now p }
{
    catalog.sort_columns(u16::from(p))[0]
}

/// The cuts of a projection.
fn cuts_of(catalog: &Catalog, p: u8) -> &Cells
    requires { p < length catalog.now.projections }
    ensures cuts { values result.now ≡ (projection catalog.now p).cuts }
    ensures rules { IsCatalog catalog.now }
{
    &catalog.projection(u16::from(p)).cuts
}

/// The projections sorted first by a column whose segment with a value is not lost.
fn kept_at(catalog: &Catalog, loss: Loss, column: u8, value: &Value) -> Projections
    ensures { IsKept catalog.now loss column value.now result }
{
    let mut set = 0;
    for p in 0..graph::projection_count(catalog) {
        let q = u16::from(p);
        if first_sort_of(catalog, p) == column
            && !catalog.lost(q, catalog.segment_of(q, value), loss)
        {
            set = sets::with(set, p);
        }
    }
    set
}

/// The family without sets.
fn no_sets() -> Family
    ensures size { length result ≡ 256 }
    ensures none { (s : ℕ) → among result s ≡ false }
{
    [false; 256]
}

/// The family of the empty set alone.
fn empty_set() -> Family
    ensures size { length result ≡ 256 }
    ensures has { among result 0 ≡ true }
    ensures only { (s : ℕ) → among result s ≡ true → s ≡ 0 }
{
    let mut sets = no_sets();
    sets[0] = true;
    sets
}

/// Adds the old sets, each united with `kept`.
fn add_joined(old: &Family, new: &mut Family, kept: Projections)
    ensures { IsGrown old.now kept new.old new.new }
{
    for s in 0..256u16 {
        if old[s as usize] {
            new[(s as u8 | kept) as usize] = true;
        }
    }
}

/// Adds the old sets, each united with what is kept at a value.
fn add_value(catalog: &Catalog, loss: Loss, c: u8, old: &Family, new: &mut Family, value: &Value)
    requires exists { c < length catalog.now.columns }
    requires of_kind { IsOfKind (column catalog.now c).kind value.now }
    requires left { AreLeft catalog.now loss c old.now }
    requires growing { IsGrowing catalog.now loss c new.old }
    ensures growing { IsGrowing catalog.now loss c new.new }
    ensures stays { StaysIn new.old new.new }
    ensures has { HasValue catalog.now loss c old.now new.new value.now }
{
    add_joined(old, new, kept_at(catalog, loss, c, value));
}

/// Adds the old sets, each united with what is kept at each cut of a projection.
fn add_cuts(catalog: &Catalog, loss: Loss, c: u8, p: u8, old: &Family, new: &mut Family)
    requires column { c < length catalog.now.columns }
    requires exists { p < length catalog.now.projections }
    requires sorted { first_sort catalog.now p ≡ c }
    requires left { AreLeft catalog.now loss c old.now }
    requires growing { IsGrowing catalog.now loss c new.old }
    ensures growing { IsGrowing catalog.now loss c new.new }
    ensures stays { StaysIn new.old new.new }
    ensures has { HasCuts catalog.now loss c old.now new.new p }
{
    let cuts = cuts_of(catalog, p);
    for at in 0..cuts.len() {
        let cut = cuts.cell(at);
        add_value(catalog, loss, c, old, new, &cut);
    }
}

/// The family after one more column.
fn with_column(catalog: &Catalog, loss: Loss, c: u8, old: &Family) -> Family
    requires exists { c < length catalog.now.columns }
    requires left { AreLeft catalog.now loss c old.now }
    ensures { AreLeft catalog.now loss (c + 1) result }
{
    let mut new = no_sets();
    let least = catalog.kind(c).least();
    add_value(catalog, loss, c, old, &mut new, &least);
    for p in 0..graph::projection_count(catalog) {
        if first_sort_of(catalog, p) == c {
            add_cuts(catalog, loss, c, p, old, &mut new);
        }
    }
    new
}

/// The family of all rows.
fn all_left(catalog: &Catalog, loss: Loss) -> Family
    ensures left { AreLeft catalog.now loss (length catalog.now.columns) result }
    ensures rules { IsCatalog catalog.now }
{
    let mut sets = empty_set();
    for column in 0..graph::column_count(catalog) {
        sets = with_column(catalog, loss, column, &sets);
    }
    sets
}

/// Whether each possible row is safe.
pub fn is_safe_by_rows(catalog: &Catalog, graph: &Graph, loss: Loss) -> bool
    requires { IsGraphOf catalog.now graph.now }
    ensures { IsTrue result ↔ IsSafeByRows catalog.now loss }
{
    let sets = all_left(catalog, loss);
    for s in 0..256u16 {
        if sets[s as usize] {
            match reach::first_suitable(graph, s as u8) {
                Some(_) => {}
                None => return false,
            }
        }
    }
    true
}
