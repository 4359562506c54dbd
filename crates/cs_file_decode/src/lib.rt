//! What the bytes of one file say: what they hold, or where they stop making sense; and their digest, as wanted and as
//! found.
#![tactic(auto)]

mod content;
mod counts;
mod cursor;
mod deltas;
mod digests;
mod joins;
mod look;
mod nonsense;
mod segments;

pub use content::{Content, FileReport};
pub use counts::head_count;
pub use digests::{Digests, digests_of};
pub use look::look_into;
pub use nonsense::{Nonsense, Wanted};
