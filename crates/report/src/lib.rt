// The checking program: a delivery is read and judged, and the answer goes to standard output, line by line. No contract can speak of what is
// read or written, so the public functions promise nothing beyond safety and an end.
#![tactic(auto)]

mod articles;
mod input;
mod lines;
mod prices;
mod writing;

pub use input::{check, check_input};
