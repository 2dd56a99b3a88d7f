// Whether a delivery is complete: its UNB and its UNZ, and that nothing but messages stands between them. No verdict or price depends on this.
#![tactic(auto)]

mod judging;
mod parts;
mod walking;

pub use judging::{Incomplete, Reason, judged};
