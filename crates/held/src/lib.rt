// A reader that holds the delivery, how it is cut and its place, for callers who go through the segments once.
#![tactic(auto)]

mod next;
mod reader;

pub use reader::{Reader, opened, step_from};
