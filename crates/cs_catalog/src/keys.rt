//! The keys of a TOML table, each read at its type. A key that is missing or of another type breaks rule 2.
ghost use Rattle.std.specs.Prelude.{◌≡◌, Some, IfOk, IfErr, map};
ghost use Rattle.toml.specs.Data.{as_str, as_integer};
ghost use Rattle.toml.specs.View.{view, table_view};
ghost use Rattle.cs_schema.specs.Document.{read_all, is_from_to};
ghost use Rattle.cs_catalog.specs.Tree.{is_version, texts, text_at, integer_at, array_at, texts_at, integers_at};
ghost use Rattle.cs_catalog.specs.Refusals.{rule_of, IsRefused, IsRefusedUnlessMemory};

use crate::fault::Refusal;
use crate::problem::{Part, Place, Problem};
use std::alloc::Global;
use toml::{Table, Value};

/// The refusal of a table for what is wrong with a key of it.
fn refused<'a>(place: Place<'a>, key: &'static str, what: &'static str) -> Refusal<'a>
    ensures { rule_of result ≡ Some 2 }
{
    let problem = Problem::of_two("{} {}", Part::Text(key), Part::Text(what));
    Refusal::Rule(2, problem.at(place))
}

/// The text under a key.
pub fn text_at<'a>(
    place: Place<'a>,
    table: &'a Table,
    key: &'static str,
) -> Result<&'a str, Refusal<'a>>
    ensures read { IfOk result (λ s. text_at key.now (table_view table.now) ≡ Some s.now) }
    ensures unread { IfErr result (IsRefused 2 (text_at key.now (table_view table.now))) }
{
    match table.get(key) {
        Some(value) => match value.as_str() {
            Some(text) => Ok(text),
            None => Err(refused(place, key, "is not a string")),
        },
        None => Err(refused(place, key, "is missing")),
    }
}

/// The integer under a key.
pub fn integer_at<'a>(table: &'a Table, key: &'static str) -> Result<i64, Refusal<'a>>
    ensures read { IfOk result (λ z. integer_at key.now (table_view table.now) ≡ Some z) }
    ensures unread { IfErr result (IsRefused 2 (integer_at key.now (table_view table.now))) }
{
    match table.get(key) {
        Some(value) => match value.as_integer() {
            Some(number) => Ok(number),
            None => Err(refused(Place::Catalog, key, "is not an integer")),
        },
        None => Err(refused(Place::Catalog, key, "is missing")),
    }
}

/// The values of the array under a key, or a refusal that says what another value is not.
pub fn array_at<'a>(
    place: Place<'a>,
    table: &'a Table,
    key: &'static str,
    what: &'static str,
) -> Result<&'a [Value], Refusal<'a>>
    ensures read { IfOk result (λ vs. array_at key.now (table_view table.now) ≡ Some (map view vs.now)) }
    ensures unread { IfErr result (IsRefused 2 (array_at key.now (table_view table.now))) }
{
    match table.get(key) {
        Some(value) => match value.as_array() {
            Some(items) => Ok(items.as_slice()),
            None => Err(refused(place, key, what)),
        },
        None => Err(refused(place, key, "is missing")),
    }
}

/// Each value as a text, or the refusal.
fn texts<'a>(
    alloc: Global,
    values: &'a [Value],
    refusal: Refusal<'a>,
) -> Result<Vec<&'a str>, Refusal<'a>>
    requires { rule_of refusal ≡ Some 2 }
    ensures read { IfOk result (λ v. read_all as_str (map view values.now) ≡ Some (texts v.items)) }
    ensures unread { IfErr result (IsRefusedUnlessMemory 2 (read_all as_str (map view values.now))) }
{
    let mut found = Vec::new(alloc);
    for value in values {
        match value.as_str() {
            Some(text) => found.push(text)?,
            None => return Err(refusal),
        }
    }
    Ok(found)
}

/// Each value as an integer, or the refusal.
fn integers<'a>(
    alloc: Global,
    values: &'a [Value],
    refusal: Refusal<'a>,
) -> Result<Vec<i64>, Refusal<'a>>
    requires { rule_of refusal ≡ Some 2 }
    ensures read { IfOk result (λ v. read_all as_integer (map view values.now) ≡ Some v.items) }
    ensures unread { IfErr result (IsRefusedUnlessMemory 2 (read_all as_integer (map view values.now))) }
{
    let mut found = Vec::new(alloc);
    for value in values {
        match value.as_integer() {
            Some(number) => found.push(number)?,
            None => return Err(refusal),
        }
    }
    Ok(found)
}

/// The texts of the array under a key.
pub fn texts_at<'a>(
    alloc: Global,
    place: Place<'a>,
    table: &'a Table,
    key: &'static str,
) -> Result<Vec<&'a str>, Refusal<'a>>
    ensures read { IfOk result (λ v. texts_at key.now (table_view table.now) ≡ Some (texts v.items)) }
    ensures unread { IfErr result (IsRefusedUnlessMemory 2 (texts_at key.now (table_view table.now))) }
{
    let what = "is not an array of strings";
    texts(
        alloc,
        array_at(place, table, key, what)?,
        refused(place, key, what),
    )
}

/// The integers of the array under a key.
pub fn integers_at<'a>(
    alloc: Global,
    place: Place<'a>,
    table: &'a Table,
    key: &'static str,
) -> Result<Vec<i64>, Refusal<'a>>
    ensures read { IfOk result (λ v. integers_at key.now (table_view table.now) ≡ Some v.items) }
    ensures unread { IfErr result (IsRefusedUnlessMemory 2 (integers_at key.now (table_view table.now))) }
{
    let what = "is not an array of integers";
    integers(
        alloc,
        array_at(place, table, key, what)?,
        refused(place, key, what),
    )
}

/// Whether a number is at least `low` and at most `high`.
pub fn is_from_to(low: u8, high: u8, value: i64) -> bool
    ensures { result ≡ is_from_to low high value }
{
    match u8::try_from(value) {
        Ok(number) => low <= number && number <= high,
        Err(_) => false,
    }
}

/// Whether the document has this version.
pub fn is_version(number: u8, table: &Table) -> bool
    ensures { result ≡ is_version number (table_view table.now) }
{
    match integer_at(table, "version") {
        Ok(version) => is_from_to(number, number, version),
        Err(_) => false,
    }
}
