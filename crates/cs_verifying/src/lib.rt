//! Stores beside manifests: the verbs `manifest` and `verify`.
#![tactic(auto)]

mod digests;
mod listing;
mod one_site;
mod reading;
mod trusting;
mod verifying;

pub use listing::list;
pub use reading::manifest_at;
pub use trusting::{Trusted, is_changed, manifest_if};
pub use verifying::verify;
