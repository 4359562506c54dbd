//! K-safety of a catalog, decided exactly, and the plan of a recovery.
//!
//! `ksafe` says whether each loss of at most k sites is safe, and otherwise names the first that is not. `safe` decides
//! one loss, by whole projections or by rows as the catalog says. `plan` answers the only plan, if an alive projection
//! reaches every column. No call allocates. `laws` has the laws of the definitions.
#![tactic(auto)]

mod graph;
mod ksafety;
pub mod laws;
mod losses;
mod planning;
mod plans;
mod reach;
mod row_sets;
mod sets;

pub use ksafety::{SafetyFault, ksafe};
pub use losses::{alive, safe};
pub use planning::plan;
pub use plans::Plan;
