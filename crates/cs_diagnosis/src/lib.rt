//! The diagnosis of a store that may be broken: which files are bad, which losses of sites explain the rest, whether
//! these agree on one table, and where two tables differ.
//!
//! A loss is accepted if it is safe and what survives it holds a table. A minimal accepted loss explains the store. If
//! files were changed under valid digests, the explanation is the set of sites that lie.
//!
//! The survivors of a first loss are read once, and every loss that contains it is judged by them. What such a loss
//! leaves is walked to the rows of a table, and one pass over all files finds the pairs of sites with which that table
//! is in conflict. From then on, a loss is accepted with the table if and only if it contains a site of each pair, and
//! no file is read again. 16 sites form at most 136 pairs, including those of a site with itself, however many files
//! are in conflict.
#![tactic(auto)]

mod absent;
mod candidate;
mod candidates;
mod comparing;
pub mod conflict_laws;
mod conflicts;
mod diagnosing;
mod disputing;
pub mod explained;
mod explaining;
pub mod findings;
mod forcing;
mod gathering;
mod images;
mod joins;
mod judging;
mod known;
pub mod laws;
mod merging;
mod missing;
mod reaching;
pub mod search;
mod sites;
pub mod summary;
mod tables;
mod walks;

pub use absent::are_absent;
pub use candidate::Candidate;
pub use candidates::{Remains, find_candidate};
pub use conflicts::Conflicts;
pub use cs_inspection::Badness;
pub use diagnosing::{Diagnosis, diagnose};
pub use disputing::{TableDisputes, disputed_rows};
pub use findings::{Explanation, Verdict};
pub use forcing::bad_sites;
pub use judging::conflicts_of;
pub use merging::{Dispute, Disputes, find_disputes};
pub use missing::others;
pub use reaching::Reach;
pub use tables::FoundTable;
