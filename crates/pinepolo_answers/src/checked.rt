//! What a check answers.
ghost use Rattle.pinepolo_answers.specs.Named.{AreNamed, AreNamed-prop};

use cs_diagnosis::bad_sites;
use cs_inspection::Badness;
use cs_schema::{Catalog, FileName, Loss};
use cs_store::Fault;
use pinepolo_places::{DEVICE, DONE, REFUSED, WorkKind};

/// What a check came to.
#[derive(Clone, Copy)]
pub enum Verdict {
    /// The store is sound, has so many rows, and any `k` sites may fail.
    Sound { rows: u64, k: u8 },
    /// Any `k` sites must not fail: this loss is not safe.
    Fatal { k: u8, loss: Loss },
    /// Some files are bad.
    BadFiles,
    /// The files contradict each other.
    Unsound(Fault),
}

/// What a check found.
#[derive(Drop)]
pub struct Checked {
    /// The catalog of the store.
    pub catalog: Catalog,
    /// The bad files, in the order of their names.
    pub bad: Vec<(FileName, Badness)>,
    /// Whether a file could not be read.
    pub is_unreadable: bool,
    /// What it came to.
    pub verdict: Verdict,
    /// Which kind of work on it was left unfinished.
    pub unfinished: Option<WorkKind>,
    pub ghost named: { AreNamed catalog bad.items } by { AreNamed-prop catalog bad.items },
}

impl Checked {
    ghost use Rattle.std.specs.Prelude.{◌≡◌, ◌↔◌, ℕ, IsTrue};
    ghost use Rattle.cs_schema.specs.Lists.{member};
    ghost use Rattle.cs_diagnosis.specs.Forced.{IsBadSite};
    ghost use Rattle.pinepolo_answers.specs.Statuses.{checked_status};

    /// The status that tells it: 0 where the store is sound, 4 where a file could not be read, else 1.
    pub fn status(&self) -> u8
        ensures { result ≡ checked_status self.now.verdict self.now.is_unreadable }
    {
        match self.verdict {
            Verdict::Sound { .. } => DONE,
            _ => { if self.is_unreadable { DEVICE } else { REFUSED } }
        }
    }

    /// The sites of the bad files.
    pub fn bad_sites(&self) -> Loss
        ensures { (x : ℕ) → IsTrue (member result x) ↔ IsBadSite self.now.catalog self.now.bad.items x }
    {
        bad_sites(&self.catalog, self.bad.as_slice())
    }
}
