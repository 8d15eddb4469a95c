// Writer and strip reader: lists of items to intervals, and back.
#![tactic(auto)]

mod pen;
pub mod reader;
mod windows;
pub mod writer;
