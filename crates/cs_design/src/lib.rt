//! What a catalog alone says about losses: which further sites must not fail, how many of any may, and which files each
//! has.
//!
//! Use it on a layout before any row is stored, and on a store that has lost sites: a loss then counts together with
//! what is lost already.
#![tactic(auto)]

mod fatal;
mod greatest;
pub mod order;
mod sites;
pub mod within;

pub use fatal::fatal_losses;
pub use greatest::greatest_k;
pub use sites::files_of_site;
