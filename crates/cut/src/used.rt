// The service characters that a delivery is read with.
ghost use Rattle.std.specs.Prelude.{◌≡◌, get_or};
ghost use Rattle.cut.specs.Used.{named, plainly, characters_of};

use crate::breaks::past_breaks;
use crate::service::{Delivery, Syntax, usual};
use bytewise::begins_with;

// UNA's own, or those that are handed in for a delivery without UNA. Whether they may be used is told by `admission`.
pub fn characters(y: Syntax, d: &[u8]) -> Syntax
    ensures { result ≡ characters_of y d.now }
{
    let plain = Delivery {
        syntax: usual_as(y),
        bytes: d,
    };
    let k = past_breaks(plain, 0);
    let una = &d[k..];
    if begins_with(una, b"UNA") {
        return named_by(y, una);
    }
    y
}

impl<'a> Delivery<'a> {
    // A delivery with the characters that it is read with.
    pub fn read(y: Syntax, d: &'a [u8]) -> Delivery<'a>
        ensures { result ≡ record { syntax = characters_of y d.now; bytes = d.entry } }
    {
        Delivery {
            syntax: characters(y, d),
            bytes: d,
        }
    }
}

// The usual characters: UNA is looked for before the delivery's own are known.
fn usual_as(y: Syntax) -> Syntax
    ensures { result ≡ plainly y }
{
    Syntax {
        skips: y.skips,
        ..usual()
    }
}

fn byte_of(d: &[u8], i: usize) -> u8
    ensures { result ≡ get_or d.now i 0 }
{
    d.get(i).copied().unwrap_or(0)
}

#[tactic(auto, unfolding(crate::specs::Used::named))]
fn named_by(y: Syntax, una: &[u8]) -> Syntax
    ensures { result ≡ named y una.now }
{
    let component = byte_of(una, 3);
    let element = byte_of(una, 4);
    let decimal = byte_of(una, 5);
    let release = byte_of(una, 6);
    let terminator = byte_of(una, 8);
    Syntax {
        component,
        element,
        decimal,
        release,
        terminator,
        skips: y.skips,
    }
}
