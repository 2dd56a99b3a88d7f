// The verdict of one message: its segments one after the other, then its end, then agreeing positions.
#![tactic(auto)]

mod answers;
mod edition;
mod ended;
mod faults;
mod kept;
mod message;
mod roles;
mod segment;

pub use answers::{Accepted, Judged, Refused, Verdict};
pub use message::judged;
