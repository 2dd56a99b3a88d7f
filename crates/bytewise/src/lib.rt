// Rows of bytes: their parts and beginnings, and eight of them at once in one number. Knows nothing of EDIFACT.
#![tactic(auto)]

mod beginning;
mod eights;
mod limit;
mod search;

pub use beginning::begins_with;
pub use eights::{alike, eight_at, first_of};
pub use limit::limit_of;
pub use search::{ByteTest, first_that};
