// The tests of refusals 10 and 11, on the raw bytes of a segment.
#![tactic(auto)]

mod clean;

pub use clean::{allowed, tagged};
