//! Restores a store in place, and undoes a restore, so that an interruption at any moment loses nothing.
//!
//! `restore` rebuilds what was lost from what survives, keeps the files that it replaces, puts the rebuilt files in place
//! one by one, and reads the whole store back. A store whose restore was interrupted still holds its table, and restoring
//! it again puts the same files in place.
//!
//! `put_back` keeps the files of the names that had changed, and then gives each name its earlier file, or none. It makes
//! no demand on the store: the restore that it undoes may have been a wrong guess.
#![tactic(auto)]

mod comparing;
pub mod laws;
mod naming;
mod placing;
mod planning;
mod restoring;
mod step;
pub mod undo_laws;
mod undoing;

pub use cs_rebuild::{Gate, OpenGate, Run};
pub use naming::names_of;
pub use placing::exchange;
pub use planning::{Plan, check_held, plan_restore};
pub use restoring::{Restored, restore};
pub use step::{Step, What};
pub use undoing::put_back;
