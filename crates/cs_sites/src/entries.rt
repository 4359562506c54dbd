//! The `[[site]]` tables of a SITES file.
ghost use Rattle.std.specs.Prelude.{◌≡◌, ◌==◌, ◌++◌, ◌∷◌, [], true, false, Some, IfOk, IfErr, IfSome, IfNone, OnOk, map, option_map};
ghost use Rattle.std.specs.List.{list_any, IsDistinct};
ghost use Rattle.toml.specs.View.{view, table_view};
ghost use Rattle.cs_schema.specs.Document.{read_all};
ghost use Rattle.cs_sites.specs.Reading.{integer_at, text_at, site_number, number_of, folder_of, entry_of, IsBadTable, IsBadList};

use crate::SitesFault;
use std::alloc::Global;
use std::marker::Model;
use toml::{Table, Value};

/// A site's folder, as a SITES file names it.
#[derive(Debug, Drop)]
pub struct SiteFolder {
    /// The number of the site, from 1.
    pub number: u8,
    /// The path of its folder. A relative one begins at the folder of the file.
    pub folder: String,
}

impl Model for SiteFolder {
    ghost use Rattle.std.specs.Prelude.{string_bytes};
    ghost use Rattle.cs_sites.specs.Reading.{SiteText};

    ghost Value = { SiteText };

    ghost view = { λ s. record { number = s.number; folder = string_bytes s.folder } };
}

/// The integer at a key.
fn integer_at(table: &Table, key: &str) -> Option<i64>
    ensures { result ≡ integer_at key.now (table_view table.now) }
{
    match table.get(key) {
        Some(value) => value.as_integer(),
        None => None,
    }
}

/// The string at a key.
fn text_at<'a>(table: &'a Table, key: &str) -> Option<&'a str>
    ensures { option_map (λ s. s.now) result ≡ text_at key.now (table_view table.now) }
{
    match table.get(key) {
        Some(value) => value.as_str(),
        None => None,
    }
}

/// An integer as the number of a site.
fn site_number(value: i64) -> Option<u8>
    ensures { result ≡ site_number value }
{
    match u8::try_from(value) {
        Ok(number) if 1 <= number && number <= 16 => Some(number),
        _ => None,
    }
}

/// The number of a table's site.
fn number_of(value: &Value) -> Option<u8>
    ensures { result ≡ number_of (view value.now) }
{
    let Some(table) = value.as_table() else {
        return None;
    };
    match integer_at(table, "number") {
        Some(number) => site_number(number),
        None => None,
    }
}

/// The folder of a table's site.
fn folder_of(value: &Value) -> Option<&str>
    ensures { option_map (λ s. s.now) result ≡ folder_of (view value.now) }
{
    match value.as_table() {
        Some(table) => text_at(table, "folder"),
        None => None,
    }
}

/// Reads the table at this place in the list.
fn entry(alloc: Global, at: usize, value: &Value) -> Result<SiteFolder, SitesFault>
    ensures read { IfOk result (λ e. entry_of (view value.now) ≡ Some e) }
    ensures refused { IfErr result (IsBadTable at (view value.now)) }
{
    let Some(number) = number_of(value) else {
        return Err(SitesFault::Number(at));
    };
    let Some(folder) = folder_of(value) else {
        return Err(SitesFault::Folder(at));
    };
    match String::from_str(alloc, folder) {
        Ok(folder) => Ok(SiteFolder { number, folder }),
        Err(_) => Err(SitesFault::Memory),
    }
}

/// Adds an item to a list.
pub fn push<T: Drop>(list: &mut Vec<T>, item: T) -> Result<(), SitesFault>
    ensures ok { OnOk result (list.new.items ≡ list.old.items ++ item ∷ []) }
    ensures memory { IfErr result (λ fault. fault ≡ SitesFault.Memory) }
{
    match list.push(item) {
        Ok(()) => Ok(()),
        Err(_) => Err(SitesFault::Memory),
    }
}

/// The number of a site, if one of the others has it.
fn repeated(found: &[SiteFolder], site: &SiteFolder) -> Option<u8>
    ensures some { IfSome result (λ n. (n ≡ site.now.number) × (list_any (λ e. e.number == n) found.now ≡ true)) }
    ensures none { IfNone result (list_any (λ e. e.number == site.now.number) found.now ≡ false) }
{
    let number = site.number;
    for entry in found {
        if entry.number == number {
            return Some(number);
        }
    }
    None
}

/// Reads the tables, in their order. No number stands twice.
pub fn read_entries(alloc: Global, tables: &[Value]) -> Result<Vec<SiteFolder>, SitesFault>
    ensures read { IfOk result (λ v. read_all entry_of (map view tables.now) ≡ Some v.items) }
    ensures distinct { IfOk result (λ v. IsDistinct ◌==◌ (map (λ e. e.number) v.items)) }
    ensures refused { IfErr result (IsBadList (map view tables.now)) }
{
    let mut found = Vec::new(alloc);
    for at in 0..tables.len() {
        let entry = match entry(alloc, at, &tables[at]) {
            Ok(entry) => entry,
            Err(fault) => return Err(fault),
        };
        if let Some(number) = repeated(&found, &entry) {
            return Err(SitesFault::Twice(number));
        }
        push(&mut found, entry)?;
    }
    Ok(found)
}
