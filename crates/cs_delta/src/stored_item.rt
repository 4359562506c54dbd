//! Items as a layer stores them.

/// An item whose cells are in its layer, from index `from` on.
#[derive(Clone, Copy)]
pub(crate) enum StoredItem {
    Insert { at: u32, key: u32, from: usize },
    Delete { at: u32 },
    Modify { at: u32, column: u8, from: usize },
}
