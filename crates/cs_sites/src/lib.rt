//! A store whose sites stand in folders of their own.
//!
//! A SITES file names the folder of each site. `SitedSource` reads each file of a store from the source of its site alone,
//! and is proved to answer what that source answers. A site that is away is not asked: each of its names is a fault of the
//! device, and none of its files is missing.
#![tactic(auto)]

mod entries;
mod fault;
pub mod laws;
mod placing;
mod reading;
mod rewriting;
mod routing;
mod sited;

pub use entries::SiteFolder;
pub use fault::SitesFault;
pub use placing::{folder_beside, folders_of};
pub use reading::{SITES_LIMIT, read_sites};
pub use rewriting::with_folders;
pub use routing::Routes;
pub use sited::SitedSource;
