//! What a drill answers.
ghost use Rattle.std.specs.Prelude.{◌≡◌};
ghost use Rattle.std.specs.List.{list_any};
ghost use Rattle.pinepolo_answers.specs.Statuses.{drilled_status, is_failed};

use cs_drill::{Outcome, Trial};
use cs_schema::{Catalog, Loss};
use cs_store::Fault;
use pinepolo_places::{DONE, REFUSED};

/// What a loss took.
#[derive(Clone, Copy)]
pub struct Measure {
    /// The milliseconds of its rebuilding and comparing.
    pub milliseconds: u64,
    /// The greatest memory of the process by its end, in KiB.
    pub peak: Option<u64>,
}

/// What a drill found.
#[derive(Drop)]
pub struct Drilled {
    /// The catalog of the store.
    pub catalog: Catalog,
    /// The greatest number of sites of a loss that was tried.
    pub at_most: u8,
    /// The losses that were tried, in the order of losses.
    pub trials: Vec<Trial>,
    /// What each of them took.
    pub measures: Vec<Measure>,
}

/// Whether a loss can't be rebuilt, or differs from what stands.
pub fn is_failed(trial: &Trial) -> bool
    ensures { result ≡ is_failed trial.now }
{
    match &trial.outcome {
        Outcome::Rebuilt(rebuilt) => !rebuilt.is_same,
        Outcome::Refused(_) => true,
    }
}

/// Whether the catalog does not survive a loss.
fn is_unsafe(trial: &Trial) -> bool {
    match &trial.outcome {
        Outcome::Refused(Fault::Unsafe(_)) => true,
        _ => false,
    }
}

/// Whether one of the losses can't be rebuilt, or differs from what stands.
fn any_failed(trials: &[Trial]) -> bool
    ensures { result ≡ list_any is_failed trials.now }
{
    trials.iter().any(|trial| is_failed(trial))
}

impl Drilled {
    /// The status that tells it: 1 if a loss can't be rebuilt, or differs from what stands; else 0.
    pub fn status(&self) -> u8
        ensures { result ≡ drilled_status self.now.trials.items }
    {
        if any_failed(self.trials.as_slice()) {
            REFUSED
        } else {
            DONE
        }
    }

    /// The number of losses that can't be rebuilt, or differ from what stands.
    pub fn failures(&self) -> u64 {
        let mut count = 0u64;
        for trial in &self.trials {
            if is_failed(trial) {
                count = count.saturating_add(1);
            }
        }
        count
    }

    /// Whether the catalog survives none of the losses that failed.
    pub fn fails_by_design(&self) -> bool {
        for trial in &self.trials {
            if is_failed(trial) && !is_unsafe(trial) {
                return false;
            }
        }
        true
    }

    /// The first of the losses that took longest, and what it took.
    pub fn slowest(&self) -> Option<(Loss, Measure)> {
        let mut slowest: Option<(Loss, Measure)> = None;
        for (trial, measure) in self.trials.iter().zip(self.measures.iter()) {
            let is_slower = match &slowest {
                Some((_loss, other)) => measure.milliseconds > other.milliseconds,
                None => true,
            };
            if is_slower {
                slowest = Some((trial.loss, *measure));
            }
        }
        slowest
    }
}
