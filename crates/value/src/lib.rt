// Reads what a component is worth: formats, numbers, counts; and writes a number as text. Every call that reads answers for any service
// characters and for any part of a delivery, from one place up to another.
#![tactic(auto)]

mod counts;
mod digit_runs;
mod formats;
mod numeral;
mod prices;
mod text;

pub use counts::count_of;
pub use digit_runs::plain_digits;
pub use formats::{Format, fits};
pub use prices::{Amount, number_of};
pub use text::{count_text, decimal_text};
