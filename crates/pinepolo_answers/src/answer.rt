//! What a verb did.
ghost use Rattle.std.specs.Prelude.{◌≡◌};
ghost use Rattle.pinepolo_answers.specs.Statuses.{answer_status};

use crate::checked::Checked;
use crate::designed::Designed;
use crate::diagnosed::Diagnosed;
use crate::drilled::Drilled;
use crate::dumped::Dumped;
use crate::file_view::FileView;
use crate::found_restore::FoundRestore;
use crate::listed::Listed;
use crate::new_store::NewStore;
use crate::recovered::Recovered;
use crate::restoration::Restoration;
use crate::store_view::StoreView;
use crate::undone::Undone;
use crate::verified::Verified;
use pinepolo_places::DONE;

/// What a verb did.
#[derive(Drop)]
pub enum Answer {
    /// A store was checked.
    Checked(Checked),
    /// A store was tested by rebuilding losses of it.
    Drilled(Drilled),
    /// A store was looked at as a whole.
    Shown(StoreView),
    /// One file of a store was looked at.
    ShownFile(FileView),
    /// A store was diagnosed.
    Diagnosed(Diagnosed),
    /// What a store had lost was recovered.
    Recovered(Recovered),
    /// A store was restored in place, or it was doubtful what it had lost.
    Restored(Restoration),
    /// A store was diagnosed, and restored if one table explains it.
    RestoredFound(FoundRestore),
    /// The files of a store were listed with their digests.
    Listed(Listed),
    /// A store was compared with a manifest.
    Verified(Verified),
    /// What stood in a store before a restore or an undo was put back.
    Undone(Undone),
    /// A catalog was looked at.
    Designed(Designed),
    /// A store was made from a CSV.
    Loaded(NewStore),
    /// The table of a store was written as CSV.
    Dumped(Dumped),
    /// The table of a store was laid out anew in another store.
    Relaid(NewStore),
}

impl Answer {
    /// The status that tells it.
    pub fn status(&self) -> u8
        ensures { result ≡ answer_status self.now }
    {
        match self {
            Answer::Checked(checked) => checked.status(),
            Answer::Drilled(drilled) => drilled.status(),
            Answer::Diagnosed(diagnosed) => diagnosed.status(),
            Answer::Restored(restoration) => restoration.status(),
            Answer::RestoredFound(found) => found.status(),
            Answer::Listed(listed) => listed.status(),
            Answer::Verified(verified) => verified.status(),
            Answer::Shown(_)
            | Answer::ShownFile(_)
            | Answer::Recovered(_)
            | Answer::Undone(_)
            | Answer::Designed(_)
            | Answer::Loaded(_)
            | Answer::Dumped(_)
            | Answer::Relaid(_) => DONE,
        }
    }
}
