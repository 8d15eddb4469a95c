// Document 02, (xiv): page masters for the desk embosser. A page is the data of a sector of code 3: 25 lines of 40
// cells, one byte a cell, then 24 bytes of 00.
#![tactic(auto)]

pub use making::make_pages;
pub use reading::{Pages, read_pages};

mod copying;
mod dots;
mod making;
mod reading;
mod search;
