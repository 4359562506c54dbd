//! What a diagnosis answers.
ghost use Rattle.std.specs.Prelude.{◌≡◌, IfOk};
ghost use Rattle.pinepolo_answers.specs.OnlyLoss.{AreFatalBeside};
ghost use Rattle.pinepolo_answers.specs.Statuses.{diagnosed_status};

use crate::changed::ChangedFile;
use crate::explained::only_loss;
use cs_design::fatal_losses;
use cs_diagnosis::{Diagnosis, TableDisputes, Verdict};
use cs_schema::{Catalog, Loss};
use pinepolo_places::{DONE, REFUSED, WorkKind};
use std::alloc::{AllocError, Global};

/// The status of a store that more than one table explains.
pub const AMBIGUOUS: u8 = 5;

/// The status of a store that nothing explains.
pub const NOT_RECOVERABLE: u8 = 6;

/// What a diagnosis found.
#[derive(Drop)]
pub struct Diagnosed {
    /// The catalog of the store.
    pub catalog: Catalog,
    /// What is wrong with the store.
    pub diagnosis: Diagnosis,
    /// The least losses that must not come beside the first explanation, if one table explains the store.
    pub fatal: Vec<Loss>,
    /// Where each two tables differ, where they were compared.
    pub disputes: Vec<TableDisputes>,
    /// The bad files of which a manifest says another digest.
    pub changed: Vec<ChangedFile>,
    /// Which kind of work on it was left unfinished.
    pub unfinished: Option<WorkKind>,
}

/// The least losses that must not come beside the first explanation, if one table explains a store.
fn fatal_beside(
    alloc: Global,
    catalog: &Catalog,
    diagnosis: &Diagnosis,
) -> Result<Vec<Loss>, AllocError>
    ensures { IfOk result (λ fatal. AreFatalBeside catalog.now diagnosis.now fatal.items) }
{
    match only_loss(diagnosis) {
        Some(loss) => fatal_losses(alloc, catalog, loss),
        None => Ok(Vec::new(alloc)),
    }
}

impl Diagnosed {
    /// What a diagnosis found, where its tables differ, which files a manifest says are others, and which work was left
    /// unfinished.
    pub fn new(
        alloc: Global,
        catalog: Catalog,
        diagnosis: Diagnosis,
        disputes: Vec<TableDisputes>,
        changed: Vec<ChangedFile>,
        unfinished: Option<WorkKind>,
    ) -> Result<Self, AllocError>
        ensures found { IfOk result (λ found. (found.catalog ≡ catalog) × (found.diagnosis ≡ diagnosis)) }
        ensures compared { IfOk result (λ found. (found.disputes ≡ disputes) × (found.changed ≡ changed) × (found.unfinished ≡ unfinished)) }
        ensures fatal { IfOk result (λ found. AreFatalBeside catalog diagnosis found.fatal.items) }
    {
        match fatal_beside(alloc, &catalog, &diagnosis) {
            Ok(fatal) => Ok(Self {
                catalog,
                diagnosis,
                fatal,
                disputes,
                changed,
                unfinished,
            }),
            Err(refused) => Err(refused),
        }
    }

    /// The status that tells it: 0 where the store is sound, 1 where one table explains it, 5 where more than one does, 6 where
    /// none does.
    pub fn status(&self) -> u8
        ensures { result ≡ diagnosed_status self.now.diagnosis.verdict }
    {
        match self.diagnosis.verdict {
            Verdict::Sound => DONE,
            Verdict::OneTable => REFUSED,
            Verdict::Ambiguous => AMBIGUOUS,
            Verdict::NotRecoverable => NOT_RECOVERABLE,
        }
    }
}
