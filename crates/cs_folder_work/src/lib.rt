//! Work on a store in folders, so that a stop at any moment costs nothing, and no second one begins beside it.
//!
//! A record of the work stands in the store's folder until it is finished, and then beside what the work keeps in
//! `replaced/N/`; a line of each finished work stands in a journal. A file is written beside its name and synced, then renamed;
//! old files are kept by hard links, in `replaced/N/` of the folder in which they stand, all made and synced before the first
//! is replaced. No contract is told what a folder holds: of what a disk keeps, nothing is proved.
#![tactic(auto)]

mod changing;
mod digests;
mod files;
mod finishing;
mod giving_back;
mod journal;
mod keeping;
mod moving;
mod names;
mod noting;
mod pending;
mod record;
mod recording;
mod replaced;
mod sealing;
mod shelf;
mod store_folders;
mod syncing;
mod taking;
mod undoing;

pub use giving_back::Ended;
pub use journal::now;
pub use keeping::keep_names;
pub use pending::pending_work;
pub use record::Change;
pub use shelf::FolderShelf;
pub use store_folders::{OtherFolder, Places, StoreFolders, find_folder};
pub use taking::{Taken, resume, take};
pub use undoing::take_undo;
