// Document 01, "The strip program": what reads and prints text as bytes.
#![tactic(auto)]

mod print;
mod read;

pub use print::append_line;
pub use read::{find, parse_byte, parse_decimal, same};
