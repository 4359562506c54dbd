//! Walks through the join indexes of surviving segments.
//!
//! `walk_range` returns the rows that a plan's walk finds from a range of its anchor's rows, and `walk_rows` the full
//! rows that the walks from a range of surviving rows find. Each fails at the first row that is led astray. A row costs
//! one look-up in a join index for each projection that it reaches. Besides its cells, a plan's walk keeps 8 bytes a row
//! for each projection, other than the anchor, in which a column is read. `Walked::append` concatenates walked rows;
//! `Walked::once` removes later rows with the same key. `walk_range` is `PlanWalk::follow` and `PlanWalk::gather`, which
//! `rebuild` calls by themselves, so that a column is built once for all ranges. It also calls `walk_fresh_rows` and
//! `join_once`, which together give the rows that `walk_rows`, `append` and `once` give. `laws` states what putting an
//! image or a join index changes.
#![tactic(auto)]

pub mod borrowed_columns;
pub mod by_rows;
mod catalog_of;
mod column_sources;
mod columns;
pub mod counts;
mod fault;
pub mod follow;
mod gather;
pub mod joining;
pub mod laws;
mod levels;
mod marks;
mod near_ints;
mod numbers;
mod once;
pub mod plan_walk;
pub mod range;
mod repeats;
mod route;
mod row_ids;
mod rows_by_int;
mod scratch;
pub mod steps;
mod superprojection;
pub mod survivors;
pub mod table;
pub mod walked;

pub use borrowed_columns::BorrowedColumns;
pub use follow::FollowedRows;
pub use once::join_once;
pub use plan_walk::PlanWalk;
pub use survivors::Survivors;
pub use table::Table;
pub use walked::Walked;
