// Request (v): bit images for the drive emulators, one 16-bit code word for each written byte.
#![tactic(auto)]

mod count;
mod make;
mod read;

pub use count::count_cells;
pub use make::make_image;
pub use read::read_image;
