// The calls over a delivery for programs in C and Rust. The reading is a struct by value, a slice a pointer and a length; each answer is a
// struct of numbers by value, and the only lent rows are those of `prices` and `plain`. Every call answers for every reading, slice, place and number.
#![tactic(auto)]

mod answers;
mod calls;

pub use answers::{Article, Envelope, Judged, Next, Prices, Segment, Totals};
pub use calls::{
    schaumtruhe_article, schaumtruhe_envelope, schaumtruhe_judge_at, schaumtruhe_next_message,
    schaumtruhe_plain, schaumtruhe_prices, schaumtruhe_segment_at, schaumtruhe_strict,
    schaumtruhe_survey, schaumtruhe_usual,
};
