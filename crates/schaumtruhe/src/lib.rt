// The calls over a delivery: survey, envelope, next message, verdict, prices and article. Each takes first how it reads, and answers for every reading,
// slice, place and number.
#![tactic(auto)]

mod articles;
mod calls;
mod judging;
mod pricing;
mod reading;
mod refusal;
mod sheets;
mod surveys;
mod unaccepted;

pub use calls::{
    article, article_at, article_refusal, envelope, judge_at, next_message, prices, survey,
};
pub use reading::{Reading, strict, usual};
pub use refusal::Refusal;
pub use surveys::Survey;
pub use unaccepted::Unaccepted;
