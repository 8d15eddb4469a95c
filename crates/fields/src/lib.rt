// Document 01, "Finding and reading a field": the field at a lock.
#![tactic(auto)]

pub mod data;
pub mod gather;
pub mod reader;
