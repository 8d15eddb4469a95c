// Cells into the reading machine, cell by cell and eight at a time.
#![tactic(auto)]

use symbols::Reading;

pub mod fours;
pub mod shift;
mod top;

// How far a pass came, and how many intervals it used.
#[derive(Clone, Copy, PartialEq, Eq)]
pub struct Pass {
    pub reading: Reading,
    pub used: usize,
}
