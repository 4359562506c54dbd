//! Rebuilding what a loss takes from a store, checking a store, returning its table, and building a new store.
//!
//! The surviving files are read, the walk through them gives the table's rows, these are sorted, and images and join
//! indexes are compared with them; `rebuild` then encodes the lost files. `build` starts from the rows and encodes
//! every file. Reading, walking, comparing and encoding run in rounds over a claim board; sorting, copying of columns,
//! hashing, and writing of join indexes run in parallel outside it. An answer depends only on the bytes: neither on the
//! number of workers nor on how the work is cut.
//!
//! The steps are public for callers that judge many losses by what was read once: `read_store`, `order_store`,
//! `is_placed`, `places`, and rounds of `Tasks`.
#![tactic(auto)]

mod answering;
mod api;
mod building;
mod column_encoder;
mod columns;
mod columns_of_rows;
mod comparing;
mod cutting;
mod digests;
mod endings;
mod file_bytes;
mod files_of;
mod files_to_write;
mod gathering;
mod hash_batches;
mod ordered_store;
mod ordering;
pub mod places;
mod planned;
mod reading;
mod rounds;
mod rowwise;
mod run;
mod run_encoder;
mod segment_encoder;
mod segment_lists;
mod shared_files;
mod sound_files;
mod sound_store;
mod surviving_table;
mod thresholds;
mod verify_images;
mod verify_join_indexes;
mod verifying;
mod walking;
mod wanted;
mod writing;

pub use api::{check, check_gated, check_owned, rebuild, rebuild_gated, rebuild_owned, table};
pub use building::build;
pub use columns_of_rows::are_columns;
pub use cs_board::{Gate, OpenGate, Round};
pub use cs_store::{Fault, FileSet, Sink, Source, StoreFault, load, save};
pub use ordered_store::{OrderedStore, store_of};
pub use rounds::Tasks;
pub use run::Run;
pub use segment_lists::{joins_of, surviving_segments};
pub use sound_files::read_store;
pub use sound_store::SoundStore;
pub use surviving_table::rows_by_key;
pub use verify_images::is_placed;
pub use verify_join_indexes::entry_or_zero;
pub use verifying::{order_store, verify};
