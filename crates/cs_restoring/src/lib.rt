//! The verbs that change a store in place. `restore` rebuilds what lost sites took, unless it is doubtful that just these were
//! lost; `undo` puts back what stood there before.
#![tactic(auto)]

mod doubting;
mod ending;
mod foreseeing;
mod planning;
mod reading;
mod restoring;
mod undoing;
mod working;

pub use restoring::restore;
pub use undoing::undo;
