//! What an undo answers.
use cs_schema::{Catalog, FileName};
use pinepolo_places::Undoable;

/// A store that has again what stood there before a restore or an undo of it.
#[derive(Drop)]
pub struct Undone {
    /// The catalog of the store.
    pub catalog: Catalog,
    /// What was put back.
    pub undoable: Undoable,
    /// The N of `replaced/N`, where what the undo replaced is kept there.
    pub kept: Option<u32>,
}

impl Undone {
    /// The size of what is back under a name, in bytes; none if that was moved back without being read, or nothing is back.
    pub fn size(&self, name: FileName) -> Option<u64> {
        if self.undoable.moved.as_slice().contains(&name) {
            return None;
        }
        match self.undoable.back.get(name) {
            Some(bytes) => Some(bytes.len() as u64),
            None => None,
        }
    }
}
