// Whether a segment begins at a place, told from the bytes just before it.
ghost use Rattle.std.specs.Prelude.{◌<◌, false, ◌≡◌, length};
ghost use Rattle.bytewise.specs.Bytes.{part};
ghost use Rattle.cut.specs.Segments.{frees, segments_at, segments_of};
ghost use Rattle.cut.specs.Calls.{begins_segment};
ghost use Rattle.cut.specs.Fronts.{whole, after};
ghost use Rattle.cut.specs.Since.{since};

use crate::admit::{admission, opening};
use crate::breaks::{before_breaks, is_break};
use crate::scan::cut_from;
use crate::service::{Delivery, Syntax};

// Whether a segment of the delivery begins at `at`. The cost is the line breaks at the delivery's start, and the line breaks and release
// characters right before the place.
pub fn begins_segment(d: Delivery<'_>, at: usize) -> bool
    ensures { result ≡ begins_segment d.entry.syntax d.entry.bytes.now at }
{
    if admission(d).is_err() {
        return false;
    }
    if d.bytes.len() <= at {
        return false;
    }
    let first = opening(d);
    if at < first {
        return false;
    }
    if is_break(d.syntax, d.bytes[at]) {
        return false;
    }
    follows_end(d, first, at)
}

// A place from which on the segments are those that begin at `from` or later, of those from `first` on.
pub fn first_from(d: Delivery<'_>, first: usize, from: usize) -> usize
    ensures { since from (segments_at d.entry.syntax d.entry.bytes.now first) ≡ segments_at d.entry.syntax d.entry.bytes.now result }
{
    if from <= first {
        return first;
    }
    if d.bytes.len() <= from {
        return d.bytes.len();
    }
    if follows_end(d, first, from) {
        return from;
    }
    match cut_from(d, from, released_at(d, first, from)) {
        Some(open) => open.end,
        None => d.bytes.len(),
    }
}

// Whether the bytes from `first` up to `at` end where a segment ends, or with line breaks behind it.
pub fn follows_end(d: Delivery<'_>, first: usize, at: usize) -> bool
    ensures { result ≡ whole (segments_of d.entry.syntax first (part first at d.entry.bytes.now)) }
{
    let end = before_breaks(d, first, at);
    if end <= first {
        return true;
    }
    let last = end - 1;
    if d.bytes[last] != d.syntax.terminator {
        return false;
    }
    !released_at(d, first, last)
}

// Whether the byte at `at` is released: an odd run of release characters stands before it.
fn released_at(d: Delivery<'_>, first: usize, at: usize) -> bool
    requires { at < length d.bytes.now }
    ensures { result ≡ after d.entry.syntax false (part first at d.entry.bytes.now) }
{
    let mut released = false;
    for i in (first..at).rev() {
        if !releases(d.syntax, d.bytes[i]) {
            return released;
        }
        released = !released;
    }
    released
}

// Whether the byte x, unless it is released itself, releases the next one.
#[tactic(auto, using(std::proofs::lemmas::Bool::Decides::nat_tests), unfolding(crate::specs::Segments::frees))]
pub fn releases(y: Syntax, x: u8) -> bool
    ensures { result ≡ frees y false x }
{
    x != y.terminator && x == y.release
}
