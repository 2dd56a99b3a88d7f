// The tests of refusals 10 and 11: the bytes of a segment, and its tag.
ghost use Rattle.std.specs.Prelude.{◌≡◌};
ghost use Rattle.bytewise.specs.Bytes.{part};
ghost use Rattle.clean.specs.Clean.{allowed_byte, allowed_bytes, ends_tag, tagged_bytes};

use bytewise::{ByteTest, first_that, limit_of};
use cut::{Delivery, Syntax};

fn allowed_byte(x: u8) -> bool
    ensures { result ≡ allowed_byte x }
{
    matches!(x, 32..=126 | 160..)
}

// The high bit of each of eight bytes.
const HIGH: u64 = 0x8080_8080_8080_8080;

const LOW: u64 = 0x7f7f_7f7f_7f7f_7f7f;

// The test of a byte that refusal 10 is given for.
struct Forbidden;

impl ByteTest for Forbidden {
    ghost use Rattle.std.specs.Prelude.{not};

    ghost holds = { λ _ x. not (allowed_byte x) };

    // A byte without its high bit is 32 or more where it is allowed, and 127 only with that bit. No sum reaches the next byte.
    fn flags(&self, w: u64) -> u64 {
        let low = w & LOW;
        let text = low + 0x6060_6060_6060_6060;
        let delete = low + 0x0101_0101_0101_0101;
        (text & ((delete ^ HIGH) | w) & HIGH) ^ HIGH
    }

    fn passes(&self, x: u8) -> bool {
        !allowed_byte(x)
    }
}

// Whether the part holds no byte that refusal 10 is given for. Two places and not the part: its last bytes are tested in one word with those behind it.
pub fn allowed(d: &[u8], a: usize, e: usize) -> bool
    ensures { result ≡ allowed_bytes (part a e d.now) }
{
    limit_of(d, e) <= first_that(&Forbidden, d, a, e)
}

fn ends_tag(y: Syntax, x: u8) -> bool
    ensures { result ≡ ends_tag y x }
{
    x == y.element || x == y.terminator
}

fn is_tagged(y: Syntax, segment: &[u8]) -> bool
    ensures { result ≡ tagged_bytes y segment.now }
{
    match segment {
        [b'A'..=b'Z', b'A'..=b'Z', b'A'..=b'Z', x, ..] => ends_tag(y, *x),
        _ => false,
    }
}

// Whether the part begins as refusal 11 asks: three capital letters, then the element separator or the terminator.
pub fn tagged(d: Delivery<'_>, a: usize, e: usize) -> bool
    ensures { result ≡ tagged_bytes d.entry.syntax (part a e d.entry.bytes.now) }
{
    let Some(segment) = d.bytes.get(a..limit_of(d.bytes, e)) else {
        return false;
    };
    is_tagged(d.syntax, segment)
}
