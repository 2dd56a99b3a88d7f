// The lines of the checking program, chunk after chunk into a lent buffer, by a printer that is a value.
#![tactic(auto)]

mod message_lines;
mod price_lines;
mod rows;
mod state;
mod steps;

pub use state::{Chunk, Counts, Printer, Rest, Stage, Unprinted};
pub use steps::{printer, step};
