//! How the columns and the primary keys of two catalogs differ.
ghost use Rattle.std.specs.Prelude.{◌≡◌, ◌<◌, true, length};
ghost use Rattle.std.specs.List.{position};
ghost use Rattle.cs_schema.specs.Rules.{same_text};
ghost use Rattle.cs_tables.specs.ByName.{column_named, has_column};
ghost use Rattle.cs_tables.specs.Differences.{first_difference, first_of_other_kind, first_without, has_column_of_kind, have_same_key};

use cs_schema::{Catalog, Column, Kind};

/// How the columns or the primary key of a new catalog differ from those of the old one. Columns are matched by name
/// and counted from 0.
#[derive(Debug, Clone, Copy, PartialEq, Eq)]
pub enum Difference {
    /// The new catalog has no column with the name of this old one.
    Missing { column: usize },
    /// The old catalog has no column with the name of this new one.
    Unknown { column: usize },
    /// This column of the new catalog has another kind than the old one with its name.
    Kind { column: usize },
    /// The primary keys have different names.
    Key,
}

/// The number of the first column with this name.
fn find_column(columns: &[Column], name: &str) -> Option<usize>
    ensures { result ≡ position (λ c. same_text c.name name.now) columns.now }
{
    columns
        .iter()
        .position(|column| column.name.as_str() == name)
}

/// The number of the column with this name, which exists.
#[tactic(auto, using(crate::proofs::NameLemmas::position_parts))]
pub(crate) fn column_named(columns: &[Column], name: &str) -> usize
    requires { has_column columns.now name.now ≡ true }
    ensures number { result ≡ column_named columns.now name.now }
    ensures there { result < length columns.now }
{
    match find_column(columns, name) {
        Some(place) => place,
        None => unreachable!(),
    }
}

/// Whether a column has this name.
fn has_column(columns: &[Column], name: &str) -> bool
    ensures { result ≡ has_column columns.now name.now }
{
    columns.iter().any(|column| column.name.as_str() == name)
}

/// Whether a column has this name and kind.
fn has_column_of_kind(columns: &[Column], name: &str, kind: Kind) -> bool
    ensures { result ≡ has_column_of_kind columns.now name.now kind }
{
    columns.iter().any(|column| column.name.as_str() == name && column.kind == kind)
}

/// The first column whose name none of the others has.
fn first_without(columns: &[Column], others: &[Column]) -> Option<usize>
    ensures { result ≡ first_without columns.now others.now }
{
    columns
        .iter()
        .position(|column| !has_column(others, column.name.as_str()))
}

/// The first column whose name and kind none of the others has.
fn first_of_other_kind(columns: &[Column], others: &[Column]) -> Option<usize>
    ensures { result ≡ first_of_other_kind columns.now others.now }
{
    columns.iter().position(|column| !has_column_of_kind(others, column.name.as_str(), column.kind))
}

/// Whether the primary keys of two catalogs have the same name.
fn have_same_key(old: &Catalog, new: &Catalog) -> bool
    ensures { result ≡ have_same_key old.now new.now }
{
    let _rules = (old.projection_count(), new.projection_count());
    old.columns[old.key as usize].name.as_str() == new.columns[new.key as usize].name.as_str()
}

/// The first difference between the columns of two catalogs, matched by name, and their primary keys.
pub(crate) fn first_difference(old: &Catalog, new: &Catalog) -> Option<Difference>
    ensures { result ≡ first_difference old.now new.now }
{
    if let Some(column) = first_without(&old.columns, &new.columns) {
        return Some(Difference::Missing { column });
    }
    if let Some(column) = first_without(&new.columns, &old.columns) {
        return Some(Difference::Unknown { column });
    }
    if let Some(column) = first_of_other_kind(&new.columns, &old.columns) {
        return Some(Difference::Kind { column });
    }
    if !have_same_key(old, new) {
        return Some(Difference::Key);
    }
    None
}
