// Judges one message by the guide of an edition: placing its segments.
#![tactic(auto)]

mod after_words;
mod code_words;
mod counting;
mod editions;
mod entry_words;
mod lacking;
mod matching;
mod pairs;
mod placing;
mod rows;
mod seeking;
mod sets;
mod tag_sets;
mod tag_words;
mod tags;
mod term_words;
mod words;

pub use guide::Edition;
pub use pairs::number_of;
pub use placing::{Misplaced, place};
pub use tags::has_tag;
