// What says quickly that no position of a message agrees with an earlier one: a number made of what is compared, and tables of the numbers that came.
#![tactic(auto)]

mod articles;
mod came;
mod marks;
mod prints;

pub use articles::note_article;
pub use marks::{is_marked, mark};
pub use prints::print_of;
