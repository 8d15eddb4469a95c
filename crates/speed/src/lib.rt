// Document 02, (xi): drives that run slow. The 64 intervals before a lock tell how fast the drive runs; those from the
// lock on are corrected by it, and read as a field.
#![tactic(auto)]

mod gather;
pub mod reader;
