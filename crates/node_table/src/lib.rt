//! A table that keeps each node once, and numbers them from zero in the order in which they came.
//!
//! An interner's keys can be the numbers of a table: keys are then equal exactly where what they stand for is.
#![tactic(auto)]

mod numbers;
mod table;

pub use numbers::next_number;
pub use table::NodeTable;
