// Theory and tables of the guides: nodes, trees of instances, and what assignments are. Its only code is the names of the editions and of the reasons for
// a refusal.
#![tactic(auto)]

mod edition;
mod reason;

pub use edition::Edition;
pub use reason::Reason;
