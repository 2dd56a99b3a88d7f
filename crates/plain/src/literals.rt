// The bytes of a part that are no release marks: all else in this crate reads through them.
ghost use Rattle.std.specs.Prelude.{◌≡◌};
ghost use Rattle.plain.specs.Plain.{decoded, literal_of};

use bytewise::limit_of;
use cut::{Delivery, Syntax};

// What is left to read of a part. A release mark makes the byte behind it literal, and one that nothing follows stands for nothing.
#[derive(Clone, Drop)]
pub struct Literals<'a> {
    syntax: Syntax,
    rest: &'a [u8],
}

impl<'a> Literals<'a> {
    ghost use Rattle.plain.specs.Plain.{literals_left};

    // Those of the part from a up to e.
    pub fn of(d: Delivery<'a>, a: usize, e: usize) -> Literals<'a>
        ensures { literals_left result ≡ decoded d.entry.syntax a e d.entry.bytes.now }
    {
        Literals {
            syntax: d.syntax,
            rest: d.bytes.get(a..limit_of(d.bytes, e)).unwrap_or(&[]),
        }
    }
}

impl<'a> Iterator for Literals<'a> {
    ghost use Rattle.std.specs.Iterator.{YieldsFirst, item_count};
    ghost use Rattle.plain.specs.Plain.{literals_left};

    type Item = u8;

    ghost next_gives = { YieldsFirst literals_left };

    ghost remaining = { item_count literals_left };

    fn next(&mut self) -> Option<u8> {
        let (first, behind) = self.rest.split_first()?;
        if !cut::releases(self.syntax, *first) {
            self.rest = behind;
            return Some(*first);
        }
        let (released, behind) = behind.split_first()?;
        self.rest = behind;
        Some(*released)
    }
}

// The place of the next byte from i on that is no release mark; not before the part's end where there is none. The test on the delivery's length
// stands for the one that reading a byte makes.
pub fn literal(d: Delivery<'_>, i: usize, e: usize) -> usize
    ensures { result ≡ literal_of d.entry.syntax d.entry.bytes.now i e }
{
    if i < e && i < d.bytes.len() && cut::releases(d.syntax, d.bytes[i]) {
        return i + 1;
    }
    i
}
