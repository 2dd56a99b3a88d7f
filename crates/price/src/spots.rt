// The segments of a message as the walk over its prices sees them, and the position that it is in.
ghost use Rattle.std.specs.Prelude.{◌<◌, ◌^◌, ◌≡◌};
ghost use Rattle.cut.specs.Segments.{segments_at};
ghost use Rattle.price.specs.workers.Parts.{first_held, head_spot, moved_by};

use crate::kinds::{Kind, kind_of};
use cut::{Delivery, segment_at};
use element::Span;

// A segment's first byte, its kind and the byte after its last.
#[derive(Clone, Copy, PartialEq, Eq, Debug)]
pub struct Spot {
    pub start: usize,
    pub kind: Kind,
    pub end: usize,
}

// The segment that the bytes from `at` on begin with.
pub(crate) fn spot_at(d: Delivery<'_>, at: usize) -> Option<Spot>
    ensures { result ≡ head_spot (segments_at d.entry.syntax d.entry.bytes.now at) }
{
    let cut = segment_at(d, at)?;
    Some(Spot {
        start: cut.start,
        kind: kind_of(&d.bytes[cut.start..cut.end]),
        end: cut.end,
    })
}

// A position's running number, and where its LIN stands; before the first LIN the number is 0 and the part is empty.
#[derive(Clone, Copy)]
pub struct Held {
    pub number: usize,
    pub lin: Span,
}

impl Held {
    // Before the first segment of the message that begins at `start`.
    pub(crate) fn first(start: usize) -> Held
        ensures { result ≡ first_held start }
    {
        Held {
            number: 0,
            lin: Span { start, end: start },
        }
    }

    // The position after a segment.
    pub(crate) fn moved(self, spot: Spot) -> Held
        requires { self.number < 2 ^ 63 }
        ensures { result ≡ moved_by spot.kind self spot.start spot.end }
    {
        if spot.kind != Kind::Lin {
            return self;
        }
        Held {
            number: self.number + 1,
            lin: Span {
                start: spot.start,
                end: spot.end,
            },
        }
    }
}
