//! Deltas, and the images that segments have once deltas are applied: positional updates (Héman et al., SIGMOD 2010).
//!
//! A delta's file of either version is read exactly: bytes are the file of exactly one delta, or `Damaged`. The layers
//! of a delta are applied to a segment one after the other, each in time linear in its rows and items.
#![tactic(auto)]

mod applying;
mod columns;
mod delta;
pub mod image;
mod item;
mod item_cell;
mod item_list;
mod keys;
pub mod laws;
mod layer;
mod layer_cells;
mod merging;
mod reader;
mod reading;
mod stored_item;
mod writing;

pub use delta::Delta;
pub use image::{Image, merge, merge_owned};
pub use item::{Item, ItemRow};
pub use item_cell::ItemCell;
pub use layer::Layer;
pub use layer_cells::CellContent;
pub use reading::{read_delta, read_delta_text};
pub use writing::write_empty_delta;
