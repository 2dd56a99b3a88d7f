// What stands in UNB and UNZ: the components that are compared, counted or required.
ghost use Rattle.std.specs.Prelude.{◌≡◌};
ghost use Rattle.plain.specs.Plain.{same};
ghost use Rattle.value.specs.Numeral.{none};
ghost use Rattle.envelope.specs.Required.{at, in_UNB};
ghost use Rattle.envelope.specs.Envelope.{counts, lacks};
ghost use Rattle.envelope.specs.workers.Rows.{whole_in, text_in};

use cut::Delivery;
use element::component_at;
use plain::{plain_length, same_plain};
use value::count_of;

// What is required of UNB, each by its element and its component: DE0001, 0002, 0004, 0010, 0017, 0019 and 0020.
const REQUIRED: [(usize, usize); 7] = [(1, 0), (1, 1), (2, 0), (3, 0), (4, 0), (4, 1), (5, 0)];

// Whether DE0020 of UNB, from a up to e, and of UNZ, from b up to f, are the same.
pub(crate) fn same_reference(d: Delivery<'_>, a: usize, e: usize, b: usize, f: usize) -> bool
    ensures { result ≡ same (text_in d.entry.syntax d.entry.bytes.now a e (at 5 0)) (text_in d.entry.syntax d.entry.bytes.now b f (at 2 0)) }
{
    let r = component_at(d, a, e, 5, 0);
    let s = component_at(d, b, f, 2, 0);
    same_plain(d, r.start, r.end, s.start, s.end)
}

// Whether DE0036 of UNZ, from b up to f, is the count n.
pub(crate) fn counts_messages(d: Delivery<'_>, b: usize, f: usize, n: usize) -> bool
    ensures { result ≡ counts (text_in d.entry.syntax d.entry.bytes.now b f (at 1 0)) n }
{
    let s = component_at(d, b, f, 1, 0);
    count_of(d, s.start, s.end) == Some(n as u64)
}

fn lacks_one(d: Delivery<'_>, a: usize, e: usize, element: usize, component: usize) -> bool
    ensures { result ≡ none (text_in d.entry.syntax d.entry.bytes.now a e (at element component)) }
{
    let s = component_at(d, a, e, element, component);
    plain_length(d, s.start, s.end) == 0
}

// Whether UNB, from a up to e, lacks a required component.
pub(crate) fn lacks_any(d: Delivery<'_>, a: usize, e: usize) -> bool
    ensures { result ≡ lacks d.entry.syntax (whole_in d.entry.bytes.now a e) in_UNB }
{
    for (element, component) in REQUIRED {
        if lacks_one(d, a, e, element, component) {
            return true;
        }
    }
    false
}
