// The line breaks that are skipped.
ghost use Rattle.std.specs.Prelude.{◌≡◌};
ghost use Rattle.cut.specs.Segments.{is_break, past_at};
ghost use Rattle.cut.specs.Calls.{back_at};

use crate::service::{Delivery, Syntax};
use bytewise::limit_of;

// CR or LF, where the reading skips them. Almost every byte is told by the first test.
#[tactic(auto, using(std::proofs::lemmas::Bool::Decides::nat_tests), unfolding(crate::specs::Segments::is_break))]
pub(crate) fn is_break(y: Syntax, x: u8) -> bool
    ensures { result ≡ is_break y x }
{
    x <= b'\r' && y.skips && x != y.terminator && x != y.release && matches!(x, b'\r' | b'\n')
}

// The place behind the line breaks at `at`.
pub fn past_breaks(d: Delivery<'_>, at: usize) -> usize
    ensures { result ≡ past_at d.entry.syntax d.entry.bytes.now at }
{
    for i in at..d.bytes.len() {
        if !is_break(d.syntax, d.bytes[i]) {
            return i;
        }
    }
    at.max(d.bytes.len())
}

// The place before the line breaks that end at `at`, or at the delivery's end if that comes first; not before `first`.
pub fn before_breaks(d: Delivery<'_>, first: usize, at: usize) -> usize
    ensures { result ≡ back_at d.entry.syntax d.entry.bytes.now first at }
{
    let end = limit_of(d.bytes, at);
    for i in (first..end).rev() {
        if !is_break(d.syntax, d.bytes[i]) {
            return i + 1;
        }
    }
    end.min(first)
}
