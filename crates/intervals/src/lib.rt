// A stream of intervals as cells: whether each is one, and of how many units.
#![tactic(auto)]

pub mod edges;
mod units;

pub use units::{all_sure, units_of};
