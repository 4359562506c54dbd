//! What each verb of pinepolo answers, as data, with the status that tells it. Words for it, as text and as JSON, stand elsewhere.
//!
//! Nothing here reads; what a store's folder holds is handed in.
#![tactic(auto)]

mod answer;
mod bad_files;
mod changed;
mod checked;
mod designed;
mod diagnosed;
mod doubted;
mod drilled;
mod dumped;
mod explained;
mod file_lines;
mod file_view;
mod found_restore;
mod listed;
mod new_store;
mod recovered;
mod restoration;
mod restored;
mod store_view;
mod strays;
mod undone;
mod verified;

pub use answer::Answer;
pub use bad_files::{files_of, problem_of};
pub use changed::{ChangedFile, problem_in, reads_well};
pub use checked::{Checked, Verdict};
pub use designed::Designed;
pub use diagnosed::Diagnosed;
pub use doubted::{Doubted, spare_sites};
pub use drilled::{Drilled, Measure, is_failed};
pub use dumped::Dumped;
pub use explained::only_loss;
pub use file_lines::{FileLine, badness_of, lines_of};
pub use file_view::FileView;
pub use found_restore::FoundRestore;
pub use listed::Listed;
pub use new_store::NewStore;
pub use recovered::Recovered;
pub use restoration::Restoration;
pub use restored::Restored;
pub use store_view::StoreView;
pub use strays::strays_of;
pub use undone::Undone;
pub use verified::{Verified, difference_problem};
