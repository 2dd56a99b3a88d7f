// Finds the messages of a delivery and walks through one of them, however it is cut. No call asks anything of its caller, and each
// says its whole answer by a definition of specs/.
#![tactic(auto)]

mod ahead;
mod found;
mod head;
mod outer;
mod tags;

pub use found::{Message, message_at, message_begins, message_end, next_message};
pub use head::{Head, head_at};
pub use outer::{Outer, outer_at};
