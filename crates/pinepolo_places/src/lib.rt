//! Where the verbs of pinepolo find stores and make outputs, and why a verb ends early.
//!
//! `Places` is the seam between the verbs and the system: its ghost members say of each call what it came to, so that a
//! verb's contract can say what was done.
#![tactic(auto)]

mod causes;
mod error;
mod finding;
mod listings;
mod meter;
mod places;
mod shelves;
mod sited;
mod sites_error;
mod tables;
mod watching;
mod world;

pub use causes::{CsvPlace, Failure, Refusal};
pub use cs_folders::Way;
pub use cs_shelf::{JOURNAL, Pending, RESTORING, UndoOf, Undoable, Untaken, Work, WorkKind};
pub use error::{
    DEVICE, DONE, Halfway, MEMORY, REFUSED, Step, StoreError, Subject, USAGE, VerbError,
};
pub use finding::{find_store, find_store_text, look_up, look_up_text};
pub use listings::Listings;
pub use meter::Meter;
pub use places::Places;
pub use shelves::{GivenBack, RestoreOf, Shelves};
pub use sited::{AwaySite, Sited};
pub use sites_error::{CatalogCopy, SitesError};
pub use tables::{NewFiles, Tables};
pub use watching::{refuse_pending, require_unchanged, watch};
pub use world::World;
