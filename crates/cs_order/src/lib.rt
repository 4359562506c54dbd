//! The walked rows of each segment in the order of its projection, sorted by several threads.
//!
//! Rows are refused if two have the same primary key, or else if a range has too many rows; the fault names the first
//! such range. Otherwise each segment gets the numbers of its rows in order.
#![tactic(auto)]

mod all_orders;
mod fault;
mod int_columns;
mod item;
mod key_prefix;
mod neighbours;
mod parallel;
mod passes;
mod places;
mod range_numbers;
mod ranges;
pub mod samples;
mod segments;
mod sort;
mod sorter;
mod thresholds;

pub use all_orders::Orders;
pub use fault::OrderFault;
pub use parallel::{orders, table_orders};
pub use sorter::key_order;
