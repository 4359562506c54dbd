//! From a request of pinepolo to a status, and what is printed on the way.
//!
//! `run` does what a request asks for, prints the answer as text or as one object of JSON, and gives the status. Promised: the
//! request's own verb was performed on the paths, sites and numbers that it gives, and the status tells its answer; or it stopped
//! early, with a status that is not 0.
#![tactic(auto)]

mod host;
mod printing;
mod program;

pub use cs_file_system::FailedCalls;
pub use host::{CUT, Host};
pub use pinepolo_places::{Meter, VerbError, World};
pub use program::{run, say_early, say_error};
