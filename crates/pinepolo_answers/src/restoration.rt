//! What a restore answers.
ghost use Rattle.std.specs.Prelude.{◌≡◌};
ghost use Rattle.pinepolo_answers.specs.Statuses.{restoration_status};

use crate::diagnosed::AMBIGUOUS;
use crate::doubted::Doubted;
use crate::restored::Restored;
use pinepolo_places::DONE;

/// What a restore came to.
#[derive(Drop)]
pub enum Restoration {
    /// The store was restored, or nothing was to be done but to say how.
    Done(Restored),
    /// It is doubtful that these sites are what was lost, and nothing was changed.
    Doubted(Doubted),
}

impl Restoration {
    /// The status that tells it: 0, but 5 where the loss is doubtful.
    pub fn status(&self) -> u8
        ensures { result ≡ restoration_status self.now }
    {
        match self {
            Restoration::Done(_) => DONE,
            Restoration::Doubted(_) => AMBIGUOUS,
        }
    }
}
