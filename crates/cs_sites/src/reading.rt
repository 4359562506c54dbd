//! Reading a SITES file.
ghost use Rattle.std.specs.Prelude.{◌≡◌, ◌==◌, ◌≤◌, Some, IfOk, IfErr, length, map, option_map};
ghost use Rattle.std.specs.List.{IsDistinct};
ghost use Rattle.toml.specs.View.{view, table_view};
ghost use Rattle.cs_sites.specs.Reading.{array_at, entries_of, IsBadTree, IsSitesOf, IsRefusalOf};

use crate::SitesFault;
use crate::entries::{SiteFolder, read_entries};
use std::alloc::Global;
use toml::{Table, Value};

/// How many bytes a SITES file may have.
pub const SITES_LIMIT: usize = 65_536;

/// The items of the array at a key.
fn array_at<'a>(table: &'a Table, key: &str) -> Option<&'a [Value]>
    ensures { option_map (λ vs. map view vs.now) result ≡ array_at key.now (table_view table.now) }
{
    match table.get(key) {
        Some(value) => match value.as_array() {
            Some(items) => Some(items.as_slice()),
            None => None,
        },
        None => None,
    }
}

/// The sites that a TOML tree names.
fn tree_sites(alloc: Global, table: &Table) -> Result<Vec<SiteFolder>, SitesFault>
    ensures read { IfOk result (λ v. entries_of (table_view table.now) ≡ Some v.items) }
    ensures distinct { IfOk result (λ v. IsDistinct ◌==◌ (map (λ e. e.number) v.items)) }
    ensures refused { IfErr result (IsBadTree (table_view table.now)) }
{
    match array_at(table, "site") {
        Some(tables) => read_entries(alloc, tables),
        None => Err(SitesFault::NoSites),
    }
}

/// Reads a SITES file from its text: the folder of each site, in the order of its tables. No number stands twice.
pub fn read_sites(alloc: Global, bytes: &[u8]) -> Result<Vec<SiteFolder>, SitesFault>
    ensures read { IfOk result (λ v. IsSitesOf bytes.now v.items) }
    ensures distinct { IfOk result (λ v. IsDistinct ◌==◌ (map (λ e. e.number) v.items)) }
    ensures short { IfOk result (λ _. length bytes.now ≤ 65536) }
    ensures refused { IfErr result (IsRefusalOf bytes.now) }
{
    if bytes.len() > SITES_LIMIT {
        return Err(SitesFault::TooLong);
    }
    let Ok(text) = std::str::from_utf8(bytes) else {
        return Err(SitesFault::Toml);
    };
    match toml::table_from_str(alloc, text) {
        Ok(table) => tree_sites(alloc, &table),
        Err(error) => {
            if error.is_memory() {
                Err(SitesFault::Memory)
            } else {
                Err(SitesFault::Toml)
            }
        }
    }
}
