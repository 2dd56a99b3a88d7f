// Whether a part has the format that its page asks for.
ghost use Rattle.std.specs.Prelude.{◌&&◌, ◌≡◌, leb, eqb};
ghost use Rattle.plain.specs.Plain.{decoded};
ghost use Rattle.value.specs.Format.{fits_format};
ghost use Rattle.value.specs.workers.Scans.{digits_of, numeral_of};

use crate::numeral::numeral_of;
use cut::Delivery;
use plain::plain_length;

// an..k, ank, n..k and nk.
#[derive(Clone, Copy, PartialEq, Eq, Debug)]
pub enum Format {
    AnUpTo(usize),
    An(usize),
    NUpTo(usize),
    N(usize),
}

// Whether n is 1 to k.
fn up_to(n: usize, k: usize) -> bool
    ensures { result ≡ (leb 1 n && leb n k) }
{
    (1..=k).contains(&n)
}

// Whether n is just k, and not none.
fn exactly(n: usize, k: usize) -> bool
    ensures { result ≡ (leb 1 n && eqb n k) }
{
    1 <= n && n == k
}

// How many digits the number has that the part is, decoded; 0 where it is none.
fn digit_count(d: Delivery<'_>, a: usize, e: usize) -> usize
    ensures { result ≡ digits_of (numeral_of d.entry.syntax (decoded d.entry.syntax a e d.entry.bytes.now)) }
{
    match numeral_of(d, a, e) {
        Some(n) => n.digits,
        None => 0,
    }
}

// Whether the part, decoded, has the format. A number has at least one digit, so neither n..0 nor n0 is ever met.
pub fn fits(d: Delivery<'_>, a: usize, e: usize, format: Format) -> bool
    ensures { result ≡ fits_format d.entry.syntax format (decoded d.entry.syntax a e d.entry.bytes.now) }
{
    match format {
        Format::AnUpTo(k) => up_to(plain_length(d, a, e), k),
        Format::An(k) => plain_length(d, a, e) == k,
        Format::NUpTo(k) => up_to(digit_count(d, a, e), k),
        Format::N(k) => exactly(digit_count(d, a, e), k),
    }
}
