//! The definition of recovery: what files hold, which files are expected, and what `rebuild` and `check` answer.
#![tactic(auto)]

pub mod answer_laws;
pub mod building_laws;
pub mod laws;
pub mod loss_laws;
pub mod table_laws;
