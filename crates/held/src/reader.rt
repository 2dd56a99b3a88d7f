// The reader itself: thin functions over a struct that holds a reference. The work and its branches stand in the functions that these call.
ghost use Rattle.std.specs.Prelude.{◌≡◌, ◌-◌, length};
ghost use Rattle.std.specs.Iterator.{at_most};
ghost use Rattle.held.specs.Reading.{next_from, reader_on, answer_of, moved_on};

use crate::next::{next_from, place_after};
use cut::{Cut, Syntax};

#[derive(Clone, Copy)]
pub struct Reader<'a> {
    pub syntax: Syntax,
    pub delivery: &'a [u8],
    pub at: usize,
}

// Before the first segment.
pub fn opened<'a>(y: Syntax, d: &'a [u8]) -> Reader<'a>
    ensures { result ≡ reader_on y d.entry }
{
    Reader {
        syntax: y,
        delivery: d,
        at: 0,
    }
}

// The next segment, or none; the reader then stands behind it, or where it was.
impl<'a> Iterator for Reader<'a> {
    type Item = Cut;

    ghost next_gives = { λ before answer after. (answer ≡ answer_of before) × (after ≡ moved_on before) };

    ghost remaining = { λ reader. at_most (length reader.delivery.now - reader.at) };

    #[tactic(auto, using(crate::proofs::Walking::goes), unfolding(crate::specs::Reading::answer_of, crate::specs::Reading::moved_on))]
    fn next(&mut self) -> Option<Cut> {
        let found = next_from(self.syntax, self.delivery, self.at);
        self.at = place_after(found, self.at);
        found
    }
}

// One step of a reader that stands at a place; callers of this one hold no reader.
#[tactic(auto, unfolding(crate::specs::Reading::answer_of))]
pub fn step_from(y: Syntax, d: &[u8], at: usize) -> Option<Cut>
    ensures { result ≡ next_from y d.now at }
{
    let mut reader = Reader {
        syntax: y,
        delivery: d,
        at,
    };
    reader.next()
}
