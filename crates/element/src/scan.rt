// Where a component ends and how many bytes it has: the bytes are looked at up to the first that ends something and no further than its word, so that a
// walk over a segment is one pass.
ghost use Rattle.std.specs.Prelude.{◌≡◌, length};
ghost use Rattle.element.specs.Elements.{component};
ghost use Rattle.element.specs.Components.{extent_of};

use crate::endings::{ending_of, frees_next};
use crate::services::Services;
use bytewise::{first_that, limit_of};
use cut::{Delivery, Syntax};
use plain::plain_length;

// The place after a component's last byte, and how many bytes it has with release marks removed.
#[derive(Clone, Copy)]
pub struct Extent {
    pub end: usize,
    pub length: usize,
}

// The component that begins at the place `from` of a part up to `end`. Up to the first release mark no byte is released and each counts.
pub fn component_from(d: Delivery<'_>, from: usize, end: usize) -> Extent
    ensures { result ≡ extent_of d.entry.syntax d.entry.bytes.now from end }
{
    let limit = limit_of(d.bytes, end);
    if limit <= from {
        return Extent {
            end: from,
            length: 0,
        };
    }
    let i = first_that(&Services(d.syntax), d.bytes, from, limit);
    if i < limit && d.bytes[i] == d.syntax.release {
        let stop = i + released_length(d.syntax, &d.bytes[i..limit]);
        return Extent {
            end: stop,
            length: i - from + plain_length(d, i, stop),
        };
    }
    Extent {
        end: i,
        length: i - from,
    }
}

// How many bytes the component has with which these begin, where any of them may be released.
fn released_length(y: Syntax, bytes: &[u8]) -> usize
    ensures { result ≡ length (component y bytes.now 0 0) }
{
    let mut released = false;
    for (i, x) in bytes.iter().enumerate() {
        if ending_of(y, released, *x).is_some() {
            return i;
        }
        released = frees_next(y, released, *x);
    }
    bytes.len()
}
