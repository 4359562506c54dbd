//! Why a catalog is refused.
ghost use Rattle.std.specs.Prelude.{◌≡◌, true, false, is_none, IfOk, IfErr, Some};
ghost use Rattle.cs_catalog.specs.Refusals.{rule_of};

use crate::problem::Problem;
use std::alloc::{AllocError, AllocFailed};
use thiserror::Error;

/// Why a catalog is refused.
#[derive(Debug, Clone, Copy, PartialEq, Eq, Error)]
pub enum CatalogFault {
    #[error("want of memory")]
    Memory,
    #[error("catalog: not TOML")]
    Toml,
    #[error("catalog: rule {0}")]
    Rule(u8),
}

/// Why a catalog's TOML is refused.
#[derive(Clone, Copy)]
pub enum Refusal<'a> {
    Memory,
    /// The number of a rule, and what breaks it.
    Rule(u8, Problem<'a>),
}

impl From<AllocError> for Refusal<'_> {
    ghost use Rattle.cs_catalog.specs.declared.fault.Refusal.TheVariants.{Memory};

    ghost from_gives = { λ _ refusal. refusal ≡ Memory };

    fn from(_error: AllocError) -> Self {
        Refusal::Memory
    }
}

impl<T: Drop> From<AllocFailed<T>> for Refusal<'_> {
    ghost use Rattle.cs_catalog.specs.declared.fault.Refusal.TheVariants.{Memory};

    ghost from_gives = { λ _ refusal. refusal ≡ Memory };

    fn from(_error: AllocFailed<T>) -> Self {
        Refusal::Memory
    }
}

/// Refuses a catalog by a rule if there is a problem with it.
pub fn refuse<'a>(rule: u8, problem: Option<Problem<'a>>) -> Result<(), Refusal<'a>>
    ensures kept { IfOk result (λ _. is_none problem.entry ≡ true) }
    ensures broken { IfErr result (λ refusal. (is_none problem.entry ≡ false) × (rule_of refusal ≡ Some rule)) }
{
    match problem {
        Some(problem) => Err(Refusal::Rule(rule, problem)),
        None => Ok(()),
    }
}
