//! Stores that are changed file by file, so that an interruption at any moment loses nothing, and the work that changes them.
//!
//! A shelf states by its ghost members what a read finds, what an interruption may leave, and which old files are kept.
//! A shelf in memory can be made to stop at any of its calls.
#![tactic(auto)]

mod memory;
mod reading;
mod refusing;
mod shelf;
mod work;

pub use memory::{MemoryShelf, Stop};
pub use reading::{load_held, load_readable_held};
pub use refusing::write_fault;
pub use shelf::Shelf;
pub use work::{JOURNAL, Pending, RESTORING, UndoOf, Undoable, Untaken, Work, WorkKind};
