// Document 02, (iii), (x): what is on a track.
#![tactic(auto)]

pub use index::{IndexEntry, TrackIndex, index_track};

mod index;
mod order;
