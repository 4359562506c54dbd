//! Tables and stores: a new store from a CSV, the table of a store as CSV, and a store laid out anew under another
//! catalog with the same columns.
//!
//! The files of a load hold exactly the table of the CSV's rows, the text of a dump is that of the table which the
//! surviving files hold, and a new layout holds exactly that table.
#![tactic(auto)]

mod arranging;
mod building;
mod counting;
mod cutting;
mod differences;
mod dumping;
mod laying;
mod load_fault;
pub mod load_laws;
mod load_words;
mod loading;
mod relayout_fault;
pub mod relayout_laws;
mod relayout_words;
mod repeats;

pub use building::{build_rows, is_safe};
pub use counting::count_rows;
pub use differences::Difference;
pub use dumping::{DumpFault, dump};
pub use laying::{Relaid, relayout};
pub use load_fault::{FullRange, LoadFault, Repeat};
pub use load_words::LoadWords;
pub use loading::{Loaded, load};
pub use relayout_fault::RelayoutFault;
pub use relayout_words::RelayoutWords;
