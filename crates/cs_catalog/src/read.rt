//! Reading a catalog.
ghost use Rattle.std.specs.Prelude.{◌≡◌, is_none, IfOk, IfErr};
ghost use Rattle.toml.specs.View.{table_view};
ghost use Rattle.cs_catalog.specs.Reading.{has_version, IsCatalogOfTree, IsRefusalOfTree, IsCatalogOf, IsRefusalOf};

use crate::CatalogFault;
use crate::build::catalog_of;
use crate::document::read_document;
use crate::fault::{Refusal, refuse};
use crate::keys::{integer_at, is_from_to};
use crate::problem::{Part, Problem};
use crate::rules::check_rules;
use cs_schema::Catalog;
use std::alloc::Global;
use toml::Table;

/// What breaks the rule on the version, if anything.
fn version_problem(table: &Table) -> Option<Problem<'_>>
    ensures { is_none result ≡ has_version (table_view table.now) }
{
    match integer_at(table, "version") {
        Ok(version) => {
            if is_from_to(1, 1, version) || is_from_to(2, 2, version) {
                None
            } else {
                let version = Part::Number(version);
                Some(Problem::of("version must be 1 or 2, not {}", version))
            }
        }
        Err(Refusal::Rule(_, problem)) => Some(problem),
        Err(Refusal::Memory) => unreachable!(),
    }
}

/// The catalog that a TOML tree describes.
pub fn table_catalog(alloc: Global, table: &Table) -> Result<Catalog, Refusal<'_>>
    ensures read { IfOk result (IsCatalogOfTree (table_view table.now)) }
    ensures refused { IfErr result (IsRefusalOfTree (table_view table.now)) }
{
    refuse(1, version_problem(table))?;
    let document = read_document(alloc, table)?;
    check_rules(alloc, &document)?;
    Ok(catalog_of(alloc, &document)?)
}

/// Reads a catalog from its text.
pub fn read_catalog(alloc: Global, bytes: &[u8]) -> Result<Catalog, CatalogFault>
    ensures read { IfOk result (IsCatalogOf bytes.now) }
    ensures refused { IfErr result (IsRefusalOf bytes.now) }
{
    let Ok(text) = std::str::from_utf8(bytes) else {
        return Err(CatalogFault::Toml);
    };
    match toml::table_from_str(alloc, text) {
        Ok(table) => match table_catalog(alloc, &table) {
            Ok(catalog) => Ok(catalog),
            Err(Refusal::Memory) => Err(CatalogFault::Memory),
            Err(Refusal::Rule(rule, _)) => Err(CatalogFault::Rule(rule)),
        },
        Err(error) => {
            if error.is_memory() {
                Err(CatalogFault::Memory)
            } else {
                Err(CatalogFault::Toml)
            }
        }
    }
}
