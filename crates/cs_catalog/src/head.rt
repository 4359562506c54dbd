//! The keys of a catalog's TOML other than columns and projections.
ghost use Rattle.std.specs.Prelude.{◌≡◌, codes, Some, IfOk, IfErr};
ghost use Rattle.toml.specs.View.{table_view};
ghost use Rattle.cs_catalog.specs.Tree.{safety_at, text_at, integer_at, document_of};
ghost use Rattle.cs_catalog.specs.Refusals.{IsRefused};

use crate::fault::Refusal;
use crate::keys::{integer_at, is_version, text_at};
use crate::problem::Place;
use toml::Table;

/// The keys of a document other than columns and projections.
#[derive(Clone, Copy)]
pub struct Head<'a> {
    pub table: &'a str,
    pub key: &'a str,
    pub sites: i64,
    pub safety: &'a str,
}

fn safety_at(table: &Table) -> Result<&str, Refusal<'_>>
    ensures read { IfOk result (λ s. safety_at (table_view table.now) ≡ Some s.now) }
    ensures unread { IfErr result (IsRefused 2 (safety_at (table_view table.now))) }
{
    if is_version(2, table) {
        text_at(Place::Catalog, table, "safety")
    } else {
        Ok("whole")
    }
}

/// Reads the keys other than columns and projections.
pub fn head_of(table: &Table) -> Result<Head<'_>, Refusal<'_>>
    ensures table { IfOk result (λ h. text_at (codes "table") (table_view table.now) ≡ Some h.table.now) }
    ensures key { IfOk result (λ h. text_at (codes "key") (table_view table.now) ≡ Some h.key.now) }
    ensures sites { IfOk result (λ h. integer_at (codes "sites") (table_view table.now) ≡ Some h.sites) }
    ensures safety { IfOk result (λ h. safety_at (table_view table.now) ≡ Some h.safety.now) }
    ensures unread { IfErr result (IsRefused 2 (document_of (table_view table.now))) }
{
    let name = text_at(Place::Catalog, table, "table")?;
    let key = text_at(Place::Catalog, table, "key")?;
    let sites = integer_at(table, "sites")?;
    let safety = safety_at(table)?;
    Ok(Head {
        table: name,
        key,
        sites,
        safety,
    })
}
