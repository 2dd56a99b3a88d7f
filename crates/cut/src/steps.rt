// Going through the segments of a delivery once, by value.
ghost use Rattle.std.specs.Prelude.{◌≡◌};
ghost use Rattle.cut.specs.Calls.{opened_on, step_of};

use crate::admit::{admission, opening};
use crate::scan::{Cut, segment_at};
use crate::service::{Delivery, Syntax};
use crate::used::characters;

// The service characters and the place that the next segment is looked for at.
#[derive(Clone, Copy, PartialEq, Eq, Debug)]
pub struct Cursor {
    pub syntax: Syntax,
    pub at: usize,
}

impl Cursor {
    // Before the first segment of a delivery, with the characters that it is read with.
    pub fn opened(y: Syntax, d: &[u8]) -> Cursor
        ensures { result ≡ opened_on y d.now }
    {
        Cursor {
            syntax: characters(y, d),
            at: 0,
        }
    }

    // The next segment and the cursor after it. A place within UNA counts as before the first segment.
    pub fn step(self, d: &[u8]) -> Option<(Cut, Cursor)>
        ensures { result ≡ step_of self d.now }
    {
        let syntax = self.syntax;
        let delivery = Delivery { syntax, bytes: d };
        admission(delivery).ok()?;
        let found = segment_at(delivery, self.at.max(opening(delivery)))?;
        let next = Cursor {
            syntax,
            at: found.end,
        };
        Some((found, next))
    }
}
