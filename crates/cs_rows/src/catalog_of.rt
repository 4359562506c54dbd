//! Look-ups in the catalog of survivors.
ghost use Rattle.std.specs.Prelude.{◌≡◌, ◌<◌, length};
ghost use Rattle.cs_schema.specs.CatalogData.{column, projection, segments, has_join};
ghost use Rattle.cs_schema.specs.Losses.{lost};
ghost use Rattle.cs_schema.specs.CatalogRules.{IsCatalog};
ghost use Rattle.cs_rows.specs.Superprojections.{has_all};

use crate::numbers::{self, place_in};
use crate::survivors::Survivors;
use cs_schema::{Kind, Loss};

/// The number of projections.
pub(crate) fn projection_count(survivors: &Survivors<'_>) -> u16
    ensures count { result ≡ length survivors.now.catalog.projections }
    ensures rules { IsCatalog survivors.now.catalog }
{
    survivors.catalog().projection_count()
}

/// The number of columns of the table.
pub(crate) fn column_count(survivors: &Survivors<'_>) -> usize
    ensures count { result ≡ length survivors.now.catalog.columns }
    ensures rules { IsCatalog survivors.now.catalog }
{
    survivors.catalog().column_count()
}

/// The column of the primary key.
pub(crate) fn key_column(survivors: &Survivors<'_>) -> usize
    ensures key { result ≡ survivors.now.catalog.key }
    ensures inside { result < length survivors.now.catalog.columns }
{
    survivors.catalog().key_column()
}

/// The number of segments of a projection.
pub(crate) fn segments(survivors: &Survivors<'_>, p: u16) -> u16
    requires { p < length survivors.now.catalog.projections }
    ensures count { result ≡ segments survivors.now.catalog p }
    ensures rules { IsCatalog survivors.now.catalog }
{
    survivors.catalog().segments(p)
}

/// The numbers of a projection's columns.
pub(crate) fn columns_of<'a>(survivors: &Survivors<'a>, p: u16) -> &'a [u8]
    requires { p < length survivors.now.catalog.projections }
    ensures { result.now ≡ (projection survivors.now.catalog p).columns }
{
    survivors.catalog().columns_of(p)
}

/// Whether a projection is a superprojection.
pub(crate) fn has_all_columns(survivors: &Survivors<'_>, p: u16) -> bool
    requires { p < length survivors.now.catalog.projections }
    ensures { result ≡ has_all survivors.now.catalog p }
{
    let columns = columns_of(survivors, p);
    for c in 0..column_count(survivors) {
        if place_in(columns, c) >= columns.len() {
            return false;
        }
    }
    true
}

/// The kind of a column of the table.
pub(crate) fn kind(survivors: &Survivors<'_>, c: usize) -> Kind
    requires { c < length survivors.now.catalog.columns }
    ensures { result ≡ (column survivors.now.catalog c).kind }
{
    numbers::kind(survivors.catalog(), c)
}

/// Whether a loss takes a segment.
pub(crate) fn is_lost(survivors: &Survivors<'_>, loss: Loss, p: u16, s: u16) -> bool
    requires projection { p < length survivors.now.catalog.projections }
    requires segment { s < segments survivors.now.catalog p }
    ensures { result ≡ lost survivors.now.catalog loss p s }
{
    survivors.catalog().lost(p, s, loss)
}

/// Whether a projection declares a join index to another.
pub(crate) fn has_join(survivors: &Survivors<'_>, p: u16, q: u16) -> bool
    requires { p < length survivors.now.catalog.projections }
    ensures { result ≡ has_join survivors.now.catalog p q }
{
    survivors.catalog().has_join(p, q)
}
