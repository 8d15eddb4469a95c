// Document 02 (vii): a set of sectors as bytes, by itself: what it is turned away for, and where each number is found.
#![tactic(auto)]

pub use alone::index_alone;

mod alone;
pub mod index;
pub mod span;

// How many sectors a set has, and how many bytes it takes.
#[derive(Clone, Copy, PartialEq, Eq)]
pub struct SetSize {
    pub count: usize,
    pub bytes: usize,
}
