// The print of a position: positions that agree have the same. All bytes that are compared go into it, each once, and nothing is copied.
ghost use Rattle.std.specs.Prelude.{◌≤◌, ◌≡◌, length};
ghost use Rattle.bytewise.specs.Bytes.{part};
ghost use Rattle.sieve.specs.workers.Prints.{mixed_by, mixed_unless, named_by, part_in, print_segment, print_in, print_parts, PrintedTo};

use cut::{Delivery, Syntax};
use element::{Ending, Span, ending_of, frees_next};

// What stopped a component, the place after that, and the print up to there. The end of the bytes stops the segment.
#[derive(Clone, Copy, PartialEq, Eq, Debug)]
struct Printed {
    stop: Ending,
    place: usize,
    print: u32,
}

// The factor is odd and near 2^32 divided by the golden ratio, so that every byte but the last changes the upper half of the print.
pub(crate) fn mixed(a: u32, w: u8, x: u8) -> u32
    ensures { result ≡ mixed_by a w x }
{
    (((a as u64) * 2654435769 + (w as u64) * 256 + (x as u64)) % 4294967296) as u32
}

// The same, unless the byte is of the element that is left out or is a release mark.
fn mixed_unless(skips: bool, mark: bool, a: u32, w: u8, x: u8) -> u32
    ensures { result ≡ mixed_unless skips mark a w x }
{
    if skips || mark { a } else { mixed(a, w, x) }
}

fn named(element: usize, component: usize) -> u8
    ensures { result ≡ named_by element component }
{
    (element % 16 * 16 + component % 16) as u8
}

// The print `before`, and then the bytes from `from` on that are component `component` of element `element`; it changes nothing if that is `skip`.
fn print_own(
    y: Syntax,
    bytes: &[u8],
    from: usize,
    element: usize,
    component: usize,
    skip: usize,
    before: u32,
) -> Printed
    ensures { PrintedTo y bytes.now skip element component from before result }
{
    let w = named(element, component);
    let mut print = before;
    let mut released = false;
    for i in from..bytes.len() {
        let x = bytes[i];
        if let Some(stop) = ending_of(y, released, x) {
            return Printed {
                stop,
                place: i + 1,
                print,
            };
        }
        released = frees_next(y, released, x);
        print = mixed_unless(element == skip, released, print, w, x);
    }
    Printed {
        stop: Ending::Segment,
        place: bytes.len(),
        print,
    }
}

// ... and then the components of a segment, but for those of the element `skip`. Its bytes are looked at once, so no cursor goes through it.
fn print_segment(y: Syntax, bytes: &[u8], skip: usize, before: u32) -> u32
    ensures { result ≡ print_segment y skip bytes.now before }
{
    let mut print = before;
    let mut i = 0;
    let mut element = 0;
    let mut component = 0;
    // From component to component: each says where the next turn begins.
    loop {
        let own = print_own(y, bytes, i, element, component, skip, print);
        print = own.print;
        i = own.place;
        match own.stop {
            Ending::Segment => return print,
            Ending::Element => {
                element += 1;
                component = 0;
            }
            Ending::Component => component += 1,
        }
    }
}

// The print of a position, by the places of its LIN and of its PIA and IMD if there are such. The last step brings the last byte into the upper half too.
pub fn print_of(d: Delivery<'_>, lin: Span, pia: Option<Span>, imd: Option<Span>) -> u32
    ensures { result ≡ print_parts d.entry.syntax (part lin.start lin.end d.entry.bytes.now) (part_in pia d.entry.bytes.now) (part_in imd d.entry.bytes.now) }
{
    let a = print_segment(d.syntax, lin.part(d.bytes), 1, 0);
    let b = print_optional(d, pia, a);
    mixed(print_optional(d, imd, b), 0, 0)
}

// The print `before`, and then a segment that may be missing.
fn print_optional(d: Delivery<'_>, s: Option<Span>, before: u32) -> u32
    ensures { result ≡ print_in d.entry.syntax (part_in s d.entry.bytes.now) before }
{
    match s {
        Some(s) => print_segment(d.syntax, s.part(d.bytes), 0, before),
        None => before,
    }
}
