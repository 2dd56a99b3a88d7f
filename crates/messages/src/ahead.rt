// Where the last segment ends before the next one that can end a message: one that begins with U, as UNH, UNT and UNZ do.
ghost use Rattle.std.specs.Prelude.{◌≡◌};
ghost use Rattle.messages.specs.workers.Walks.{Skipped};

use bytewise::{ByteTest, alike, first_that};
use cut::{Delivery, before_breaks, follows_end};

// The test of the letter that they begin with.
struct LetterU;

impl ByteTest for LetterU {
    ghost use Rattle.std.specs.Prelude.{eqb};

    ghost holds = { λ _ x. eqb x 85 };

    fn flags(&self, w: u64) -> u64 {
        alike(w, b'U')
    }

    fn passes(&self, x: u8) -> bool {
        x == b'U'
    }
}

// Where the segments from `from` on end before the first that begins with U, or the last of all; `from`, if there is none before it.
// Each byte is passed once.
pub(crate) fn next_u(d: Delivery<'_>, from: usize) -> usize
    ensures { Skipped d.entry.syntax d.entry.bytes.now from result }
{
    if d.bytes.len() <= from {
        return from;
    }
    let mut i = from;
    // From U to U: the search says where the next turn begins.
    loop {
        let k = first_that(&LetterU, d.bytes, i, d.bytes.len());
        if follows_end(d, from, k) {
            return before_breaks(d, from, k);
        }
        if d.bytes.len() <= k {
            return k;
        }
        i = k + 1;
    }
}
