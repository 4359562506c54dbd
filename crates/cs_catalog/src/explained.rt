//! Which rule a catalog's text breaks, and how.
ghost use Rattle.std.specs.Prelude.{◌≡◌, ℕ, Some, IfOk, IfSome, IfNone, option_map};
ghost use Rattle.toml.specs.View.{table_view};
ghost use Rattle.cs_catalog.specs.Reading.{least_broken_rule, BreaksRule};

use crate::fault::Refusal;
use crate::read::table_catalog;
use std::alloc::{AllocError, Global};
use toml::Table;

/// The first rule that a catalog's text breaks, with a description.
#[derive(Drop)]
pub struct Explanation {
    /// The number of the rule, as `read_catalog` gives it.
    pub rule: u8,
    /// What breaks it and what is expected. Columns, projections and unnamed items are numbered from 0.
    pub words: String,
}

fn explain_table(alloc: Global, table: &Table) -> Result<Option<Explanation>, AllocError>
    ensures broken { IfOk result (λ found. IfSome found (λ e. least_broken_rule (table_view table.now) ≡ Some e.rule)) }
    ensures none { IfOk result (λ found. IfNone found (least_broken_rule (table_view table.now) ≡ None)) }
{
    match table_catalog(alloc, table) {
        Ok(_) => Ok(None),
        Err(Refusal::Rule(rule, problem)) => {
            let words = format!(in alloc; "{problem}")?;
            Ok(Some(Explanation { rule, words }))
        }
        Err(Refusal::Memory) => Err(AllocError),
    }
}

/// Explains why a catalog's text is refused: the rule that `read_catalog` answers, and a description. `None` if the
/// text breaks no rule, that is, if it is a catalog or not TOML.
pub fn explain(alloc: Global, bytes: &[u8]) -> Result<Option<Explanation>, AllocError>
    ensures broken { IfOk result (λ found. IfSome found (λ e. BreaksRule bytes.now e.rule)) }
    ensures none { IfOk result (λ found. IfNone found ((n : ℕ) → ¬ BreaksRule bytes.now n)) }
{
    let Ok(text) = std::str::from_utf8(bytes) else {
        return Ok(None);
    };
    match toml::table_from_str(alloc, text) {
        Ok(table) => explain_table(alloc, &table),
        Err(error) => {
            if error.is_memory() {
                Err(AllocError)
            } else {
                Ok(None)
            }
        }
    }
}
