//! What a restore answers that finds by itself what was lost.
ghost use Rattle.std.specs.Prelude.{◌≡◌};
ghost use Rattle.pinepolo_answers.specs.Statuses.{found_status};

use crate::diagnosed::Diagnosed;
use crate::restoration::Restoration;

/// A store that was diagnosed, and restored if one table explains it.
#[derive(Drop)]
pub struct FoundRestore {
    pub diagnosed: Diagnosed,
    /// What the restore of the first explanation came to; `None` if not one table explains the store.
    pub restoration: Option<Restoration>,
}

impl FoundRestore {
    /// The status that tells it: that of the restore, or else that of the diagnosis.
    pub fn status(&self) -> u8
        ensures { result ≡ found_status self.now.diagnosed.diagnosis.verdict self.now.restoration }
    {
        match &self.restoration {
            Some(restoration) => restoration.status(),
            None => self.diagnosed.status(),
        }
    }
}
