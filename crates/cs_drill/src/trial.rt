//! What a drill finds.
use cs_schema::{FileName, Loss};
use cs_store::Fault;

/// A loss that was tried.
#[derive(Clone, Copy)]
pub struct Trial {
    pub loss: Loss,
    pub outcome: Outcome,
}

/// What came of a loss.
#[derive(Clone, Copy)]
pub enum Outcome {
    /// Its files were rebuilt, and compared with what stands.
    Rebuilt(Rebuilt),
    /// The other files were refused, as `rebuild` refuses them.
    Refused(Fault),
}

/// The rebuilt files of a loss beside those that stand.
#[derive(Clone, Copy)]
pub struct Rebuilt {
    /// The number of rows of the table that the other files hold.
    pub rows: u64,
    /// The number of files that were rebuilt.
    pub files: u64,
    /// Whether the store as it stands holds that table: each image has its rows, and each join index leads to them.
    pub is_same: bool,
    /// The first rebuilt file of which other bytes stand. A file of a store that is the same stands with other bytes if it
    /// has changes in its delta, or another encoding.
    pub first_other: Option<FileName>,
}
