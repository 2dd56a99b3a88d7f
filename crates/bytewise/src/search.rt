// The search for the first byte that passes a test, eight bytes at once.
ghost use Rattle.std.specs.Prelude.{◌≡◌, ◌≤◌, ℕ, Bool, min, length};
ghost use Rattle.bytewise.specs.Eights.{Flagged};
ghost use Rattle.bytewise.specs.Search.{FirstThat};

use crate::eights::{eight_from, first_of};
use crate::limit::limit_of;

// A test of bytes that eight can be put to at once.
pub trait ByteTest {
    ghost holds: { Self → ℕ → Bool };

    // Those of eight bytes that pass, each by its high bit.
    fn flags(&self, w: u64) -> u64
        ensures { Flagged w (holds self.now) result };

    // Whether one byte passes.
    fn passes(&self, x: u8) -> bool
        ensures { result ≡ holds self.now x };
}

// The first place from `from` on, before `limit`, whose byte passes; `limit` or the end of d, if there is none. Eight bytes are tested at once while
// eight stand there, and one by one those that are left at the end of d.
pub fn first_that<T: ByteTest>(test: &T, d: &[u8], from: usize, limit: usize) -> usize
    ensures { FirstThat (T.holds test.now) d.now from (min limit (length d.now)) result }
{
    let end = limit_of(d, limit);
    // Before this place eight bytes stand, of which the first is before the end.
    let words = end.min(d.len().saturating_sub(7));
    let mut i = from;
    // Eight bytes at a time; the last few are left to a `for`.
    while i < words {
        let m = test.flags(eight_from(d, i));
        if m != 0 {
            return end.min(i + first_of(m));
        }
        i += 8;
    }
    rest_that(test, d, i, end)
}

// The same, one by one.
fn rest_that<T: ByteTest>(test: &T, d: &[u8], from: usize, limit: usize) -> usize
    requires { limit ≤ length d.now }
    ensures { FirstThat (T.holds test.now) d.now from limit result }
{
    for i in from..limit {
        if test.passes(d[i]) {
            return i;
        }
    }
    limit
}
