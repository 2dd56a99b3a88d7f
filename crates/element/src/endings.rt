// What a byte ends, and whether it releases the next one.
ghost use Rattle.std.specs.Prelude.{◌≡◌};
ghost use Rattle.cut.specs.Segments.{frees};
ghost use Rattle.element.specs.Elements.{ending_of, ending_at};

use bytewise::limit_of;
use cut::{Delivery, Syntax, releases};

#[derive(Clone, Copy, PartialEq, Eq, Debug)]
pub enum Ending {
    Segment,
    Element,
    Component,
}

// What the byte x ends, if anything: nothing, where it is released.
pub fn ending_of(y: Syntax, released: bool, x: u8) -> Option<Ending>
    ensures { result ≡ ending_of y released x }
{
    if released {
        return None;
    }
    if x == y.terminator {
        return Some(Ending::Segment);
    }
    if x == y.element {
        return Some(Ending::Element);
    }
    if x == y.component {
        return Some(Ending::Component);
    }
    None
}

// What ends where a component ends, at the place `at` of a part up to `end`.
pub fn ending_at(d: Delivery<'_>, at: usize, end: usize) -> Ending
    ensures { result ≡ ending_at d.entry.syntax d.entry.bytes.now at end }
{
    if limit_of(d.bytes, end) <= at {
        return Ending::Segment;
    }
    ending_of(d.syntax, false, d.bytes[at]).unwrap_or(Ending::Component)
}

// Whether the byte x is a release mark: it releases the next one, unless it is released itself.
pub fn frees_next(y: Syntax, released: bool, x: u8) -> bool
    ensures { result ≡ frees y released x }
{
    !released && releases(y, x)
}
