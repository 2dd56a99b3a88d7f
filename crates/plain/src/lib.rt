// The bytes of a part of a delivery with release marks removed: how many, which, whether two parts agree. Every call answers for any service
// characters and for any part of a delivery, from one place up to another.
#![tactic(auto)]

mod literals;
mod plain;
mod words;

pub use literals::{Literals, literal};
pub use plain::{copy_plain, is_code, plain_length, same_plain};
pub use words::word_of;
