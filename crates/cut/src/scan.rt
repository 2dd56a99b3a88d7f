// The loop over bytes: where a segment ends.
ghost use Rattle.std.specs.Prelude.{◌≡◌};
ghost use Rattle.cut.specs.Calls.{cut_from, cut_at, segment_at};
ghost use Rattle.cut.specs.workers.Scanning.{is_mark};

use crate::breaks::past_breaks;
use crate::service::{Delivery, Syntax};
use bytewise::{ByteTest, alike, first_that};

// A segment's first byte, the byte after its last, and whether it is an unterminated piece.
#[derive(Clone, Copy, PartialEq, Eq, Debug)]
pub struct Cut {
    pub start: usize,
    pub end: usize,
    pub piece: bool,
}

// The first segment from `at` on, without the line breaks before it.
pub fn segment_at(d: Delivery<'_>, at: usize) -> Option<Cut>
    ensures { result ≡ segment_at d.entry.syntax d.entry.bytes.now at }
{
    cut_from(d, past_breaks(d, at), false)
}

// What is cut from `at` on, line breaks too: the segment whose own first byte is there.
pub fn cut_at(d: Delivery<'_>, at: usize) -> Option<Cut>
    ensures { result ≡ cut_at d.entry.syntax d.entry.bytes.now at }
{
    cut_from(d, at, false)
}

// The same where the byte at `at` may be released.
pub(crate) fn cut_from(d: Delivery<'_>, at: usize, released: bool) -> Option<Cut>
    ensures { result ≡ cut_from d.entry.syntax d.entry.bytes.now at released }
{
    if d.bytes.len() <= at {
        return None;
    }
    let marks = Marks(d.syntax);
    let mut i = at + usize::from(released);
    // From mark to mark: the search says where the next turn begins.
    loop {
        let k = first_that(&marks, d.bytes, i, d.bytes.len());
        if d.bytes.len() <= k {
            return Some(Cut {
                start: at,
                end: k,
                piece: true,
            });
        }
        if d.bytes[k] == d.syntax.terminator {
            return Some(Cut {
                start: at,
                end: k + 1,
                piece: false,
            });
        }
        // The byte behind the release character is released.
        i = k + 2;
    }
}

// The two characters at which the scan stops: the terminator and the release character.
#[derive(Clone, Copy)]
struct Marks(Syntax);

impl ByteTest for Marks {
    ghost holds = { λ marks. is_mark marks.0 };

    fn flags(&self, w: u64) -> u64 {
        alike(w, self.0.terminator) | alike(w, self.0.release)
    }

    #[tactic(auto, using(std::proofs::lemmas::Bool::Decides::nat_tests), unfolding(crate::specs::workers::Scanning::is_mark))]
    fn passes(&self, x: u8) -> bool {
        x == self.0.terminator || x == self.0.release
    }
}
