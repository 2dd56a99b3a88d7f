// Tags and codes as numbers.
ghost use Rattle.std.specs.Prelude.{◌+◌, ◌<◌, ◌≤◌, ◌≡◌, true, [], ◌∷◌, length, take};
ghost use Rattle.bytewise.specs.Bytes.{part};
ghost use Rattle.guide.specs.Views.{view_of};
ghost use Rattle.judge.specs.workers.Words.{packed, letters, word_of};

use cut::{Delivery, Syntax};
use element::Span;

// The word of the first three bytes, or of fewer where there are no more: with a 1 behind the last.
pub(crate) fn pack(bytes: &[u8]) -> u32
    ensures { result ≡ packed (take 3 bytes.now) }
{
    match bytes {
        [a, b, c, ..] => u32::from_le_bytes([*a, *b, *c, 1]),
        [a, b] => u32::from_le_bytes([*a, *b, 1, 0]),
        [a] => u32::from_le_bytes([*a, 1, 0, 0]),
        [] => 1,
    }
}

// The tag of the segment from start up to end.
pub(crate) fn tag_number(d: &[u8], start: usize, end: usize) -> u32
    ensures { result ≡ packed (take 3 (part start end d.now)) }
{
    pack(Span { start, end }.part(d))
}

// The word of component 0 of element 1 where eight bytes tell it: the service characters are the usual ones, which no letter of the tag is, and the
// component has at most six bytes, of which none is the release character. 0 where they do not tell it.
fn front_key(y: Syntax, d: &[u8], start: usize, end: usize) -> u64
    requires { letters (packed (take 3 (part start end d.now))) ≡ true }
    ensures { (result ≡ 0 → ⊥) → result ≡ word_of ((view_of y (part start end d.now)).key 1 0) }
{
    let limit = bytewise::limit_of(d, end);
    if limit < 12 {
        return 0;
    }
    if limit - 12 < start {
        return 0;
    }
    if !element::has_usual_services(y) {
        return 0;
    }
    if d[start + 3] != y.element {
        return 0;
    }
    let w = bytewise::eight_at(d, start + 4);
    let n = bytewise::first_of(element::services_in(y, w));
    if 6 < n {
        return 0;
    }
    if d[start + 4 + n] == y.release {
        return 0;
    }
    let scale = 1u64 << (8 * n);
    (w & (scale - 1)) + scale
}

// Component 0 of element 1, where all codes stand, of a segment whose tag is letters, releases removed; 0 where it is longer than any code.
pub(crate) fn key_number(y: Syntax, d: &[u8], start: usize, end: usize) -> u64
    requires { letters (packed (take 3 (part start end d.now))) ≡ true }
    ensures { result ≡ word_of ((view_of y (part start end d.now)).key 1 0) }
{
    let key = front_key(y, d, start, end);
    if key != 0 {
        return key;
    }
    let delivery = Delivery {
        syntax: y,
        bytes: d,
    };
    let span = element::component_at(delivery, start, end, 1, 0);
    plain::word_of(delivery, span.start, span.end)
}
