// The prices of one message: into a lent row, one after the other, and where the article of a price stands.
#![tactic(auto)]

mod articles;
mod cursor;
mod filling;
mod kinds;
mod numbers;
mod rows;
mod spots;

pub use articles::article_at;
pub use cursor::{Cursor, Price, first_price, next_price};
pub use filling::{Filled, fill};
pub use spots::Held;
