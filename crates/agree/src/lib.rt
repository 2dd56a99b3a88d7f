// Rule 23: which position of a message agrees with an earlier one.
#![tactic(auto)]

mod agreement;
mod earlier;
mod first;
mod headings;
mod runs;

pub use first::{Agreeing, first_agreeing};
