//! Stores and outputs that are folders, as the programs use them.
//!
//! Nothing is opened that is no regular file or has more bytes than it may have, and what an output
//! took is synced before it is marked. No contract is told what a folder holds.
#![tactic(auto)]

mod limits;
mod naming;
mod new_site;
mod new_store;
mod output;
mod paths;
mod reading;
mod store;
mod texts;
mod unfinished;

pub use limits::{CATALOG_LIMIT, FileLimits};
pub use new_site::{BEGUN, NewSite};
pub use new_store::{NewStoreFolder, Way, partial_path, way_to};
pub use output::OutputFolder;
pub use paths::file_in;
pub use reading::{read_bounded, read_catalog_file, read_file, unless_missing};
pub use store::StoreFolder;
pub use texts::{open_text, write_new};
pub use unfinished::{LOADING, LeftMark, way_of_mark};
