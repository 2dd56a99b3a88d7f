// The bytes of a part without release marks: how many, which, and whether two parts agree.
ghost use Rattle.std.specs.Prelude.{◌≡◌, ◌+◌, ◌≤◌, length, drop};
ghost use Rattle.plain.specs.Plain.{decoded, same, fitting, copied};

use crate::literals::Literals;
use crate::words::word_at_once;
use bytewise::{ByteTest, alike, first_that, limit_of};
use cut::{Delivery, Syntax};

// How many bytes the part has, release marks not counted. Up to the first release character each byte counts.
pub fn plain_length(d: Delivery<'_>, a: usize, e: usize) -> usize
    ensures { result ≡ length (decoded d.entry.syntax a e d.entry.bytes.now) }
{
    let end = limit_of(d.bytes, e);
    if end <= a {
        return 0;
    }
    let i = first_that(&Releases(d.syntax), d.bytes, a, end);
    i - a + literal_count(d, i, end)
}

// The same, byte by byte.
fn literal_count(d: Delivery<'_>, a: usize, e: usize) -> usize
    ensures { result ≡ length (decoded d.entry.syntax a e d.entry.bytes.now) }
{
    Literals::of(d, a, e).count()
}

// The release character.
#[derive(Clone, Copy)]
struct Releases(Syntax);

impl ByteTest for Releases {
    ghost use Rattle.std.specs.Prelude.{eqb};

    ghost holds = { λ releases x. eqb x releases.0.release };

    fn flags(&self, w: u64) -> u64 {
        alike(w, self.0.release)
    }

    fn passes(&self, x: u8) -> bool {
        x == self.0.release
    }
}

// Whether the part, decoded, is just the bytes of word: a code, a tag, an edition.
pub fn is_code(d: Delivery<'_>, a: usize, e: usize, word: &[u8]) -> bool
    ensures { result ≡ same (decoded d.entry.syntax a e d.entry.bytes.now) word.now }
{
    Literals::of(d, a, e).eq(word.iter().copied())
}

// Whether the parts from a up to e and from b up to f, both decoded, are the same: all bytes are compared, none is copied. Two short ones are compared as
// two numbers.
pub fn same_plain(d: Delivery<'_>, a: usize, e: usize, b: usize, f: usize) -> bool
    ensures { result ≡ same (decoded d.entry.syntax a e d.entry.bytes.now) (decoded d.entry.syntax b f d.entry.bytes.now) }
{
    let Some(v) = word_at_once(d, a, e) else {
        return same_bytes(d, a, e, b, f);
    };
    let Some(w) = word_at_once(d, b, f) else {
        return same_bytes(d, a, e, b, f);
    };
    v == w
}

// The same, a byte at a time.
fn same_bytes(d: Delivery<'_>, a: usize, e: usize, b: usize, f: usize) -> bool
    ensures { result ≡ same (decoded d.entry.syntax a e d.entry.bytes.now) (decoded d.entry.syntax b f d.entry.bytes.now) }
{
    Literals::of(d, a, e).eq(Literals::of(d, b, f))
}

// Writes the part, decoded, to the front of a lent row, as many bytes as fit, and answers how many; the rest stays.
pub fn copy_plain(d: Delivery<'_>, a: usize, e: usize, out: &mut [u8]) -> usize
    ensures value { result ≡ fitting (decoded d.entry.syntax a e d.entry.bytes.now) out.old }
    ensures out_after { out.new ≡ copied (decoded d.entry.syntax a e d.entry.bytes.now) out.old }
{
    let mut n = 0;
    for x in Literals::of(d, a, e) {
        if out.len() <= n {
            return n;
        }
        out[n] = x;
        n += 1;
    }
    n
}
