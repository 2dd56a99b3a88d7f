// The page check: the first fault of a segment against the page of its node, and where the components stand that a message's rules ask for.
#![tactic(auto)]

mod cells;
mod coded;
mod examining;
mod formed;
mod marks;
mod pages;
mod places;
mod quick;
mod reads;
mod right;
mod rows;
mod words;

pub use reads::{Faulty, Reading, bytes_fault, read};
