//! The joins and columns of a catalog's projections as sets.
ghost use Rattle.std.specs.Prelude.{◌≡◌, ℕ, ◌<◌, length};
ghost use Rattle.cs_schema.specs.CatalogData.{has_join};
ghost use Rattle.cs_schema.specs.CatalogRules.{IsCatalog};
ghost use Rattle.cs_safety.specs.Paths.{holds_column};
ghost use Rattle.cs_safety.specs.NumberSets.{is_in};
ghost use Rattle.cs_safety.specs.Reach.{IsGraphOf};

use crate::sets;
use crate::sets::{Columns, Projections};
use cs_schema::Catalog;

/// The joins and the columns of each projection. Built once from the catalog, for many losses.
#[derive(Clone, Copy)]
pub struct Graph {
    pub count: u8,
    pub width: u8,
    pub joins: [Projections; 8],
    pub columns: [Columns; 8],
}

/// The number of projections.
pub fn projection_count(catalog: &Catalog) -> u8
    ensures count { result ≡ length catalog.now.projections }
    ensures rules { IsCatalog catalog.now }
{
    catalog.projection_count() as u8
}

/// The number of columns.
pub fn column_count(catalog: &Catalog) -> u8
    ensures count { result ≡ length catalog.now.columns }
    ensures rules { IsCatalog catalog.now }
{
    catalog.column_count() as u8
}

/// The projections to which a projection declares a join.
fn targets(catalog: &Catalog, p: u8) -> Projections
    requires { p < length catalog.now.projections }
    ensures { (q : ℕ) → is_in result q ≡ has_join catalog.now p q }
{
    let joins = catalog.joins_of(u16::from(p));
    let mut found = 0;
    for q in joins {
        found = sets::with(found, *q);
    }
    found
}

/// The columns of a projection, as a set.
fn held(catalog: &Catalog, p: u8) -> Columns
    requires { p < length catalog.now.projections }
    ensures { (c : ℕ) → is_in result c ≡ holds_column catalog.now p c }
{
    let columns = catalog.columns_of(u16::from(p));
    let mut found = 0;
    for c in columns {
        found = sets::with_column(found, *c);
    }
    found
}

/// The graph of a catalog.
pub fn graph_of(catalog: &Catalog) -> Graph
    ensures graph { IsGraphOf catalog.now result }
    ensures rules { IsCatalog catalog.now }
{
    let count = projection_count(catalog);
    let width = column_count(catalog);
    let mut joins = [0; 8];
    let mut columns = [0; 8];
    for p in 0..count {
        joins[p as usize] = targets(catalog, p);
        columns[p as usize] = held(catalog, p);
    }
    Graph {
        count,
        width,
        joins,
        columns,
    }
}
