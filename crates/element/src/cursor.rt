// A cursor by value that goes through the components of a segment once, from left to right.
ghost use Rattle.std.specs.Prelude.{◌≡◌, drop};
ghost use Rattle.element.specs.Cursors.{cursor_at, done, opening, rest, step_of, Stopped};

use crate::endings::{Ending, ending_at};
use crate::scan::component_from;
use bytewise::limit_of;
use cut::Delivery;

// The numbers and the place of the component that comes next, and the place after the segment's last byte.
#[derive(Clone, Copy, PartialEq, Eq, Debug)]
pub struct Cursor {
    pub element: usize,
    pub component: usize,
    pub place: usize,
    pub end: usize,
}

// A component with its numbers, from its first byte to the place after its last, and the cursor after it.
#[derive(Clone, Copy, PartialEq, Eq, Debug)]
pub struct Visit {
    pub element: usize,
    pub component: usize,
    pub start: usize,
    pub end: usize,
    pub next: Cursor,
}

fn spent() -> Cursor
    ensures { result ≡ done }
{
    Cursor {
        element: 0,
        component: 0,
        place: 1,
        end: 0,
    }
}

impl Cursor {
    // The cursor before the first component of the part; an empty part has none.
    pub fn new(d: &[u8], start: usize, end: usize) -> Cursor
        ensures { result ≡ opening d.now start end }
    {
        if start < limit_of(d, end) {
            return Cursor {
                element: 0,
                component: 0,
                place: start,
                end,
            };
        }
        spent()
    }

    // The cursor after the component that ends at the place `stop`.
    fn after(self, d: Delivery<'_>, stop: usize, limit: usize) -> Cursor
        requires { Stopped d.syntax d.bytes.now self stop limit }
        ensures { result ≡ cursor_at self.end (drop 1 (rest d.entry.syntax d.entry.bytes.now self)) }
    {
        match ending_at(d, stop, limit) {
            Ending::Segment => spent(),
            Ending::Element => Cursor {
                element: self.element + 1,
                component: 0,
                place: stop + 1,
                end: self.end,
            },
            Ending::Component => Cursor {
                element: self.element,
                component: self.component + 1,
                place: stop + 1,
                end: self.end,
            },
        }
    }

    // The component that comes next, if one is left. The tests on the numbers hold in every walk. They are there for cursors that no walk made, so that no sum
    // wraps.
    pub fn step(self, d: Delivery<'_>) -> Option<Visit>
        ensures { result ≡ step_of d.entry.syntax d.entry.bytes.now self }
    {
        let start = self.place;
        let limit = limit_of(d.bytes, self.end);
        if limit < start {
            return None;
        }
        if start < self.element {
            return None;
        }
        if start < self.component {
            return None;
        }
        let end = component_from(d, start, limit).end;
        let next = self.after(d, end, limit);
        Some(Visit {
            element: self.element,
            component: self.component,
            start,
            end,
            next,
        })
    }
}
