// Cuts a delivery of EDIFACT bytes into segments, for any service characters, with or without skipping the line breaks between them. No call
// asks anything of its caller, and each says its whole answer by a definition of specs/.
#![tactic(auto)]

mod admit;
mod begins;
mod breaks;
mod scan;
mod service;
mod serving;
mod steps;
mod used;

pub use admit::{Inadmissible, admission, opening};
pub use begins::{begins_segment, first_from, follows_end, releases};
pub use breaks::{before_breaks, past_breaks};
pub use scan::{Cut, cut_at, segment_at};
pub use service::{Delivery, Syntax, strict, usual};
pub use steps::Cursor;
pub use used::characters;
