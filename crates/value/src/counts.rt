// Counts and position numbers: digits alone, without leading zeros.
ghost use Rattle.std.specs.Prelude.{◌≡◌};
ghost use Rattle.plain.specs.Plain.{decoded};
ghost use Rattle.value.specs.Digits.{count_of};

use crate::numeral::digits;
use cut::Delivery;
use plain::Literals;

// The count that the part is, decoded: `0` is one; `00` and `07` are none, and neither is what has more than fifteen digits.
pub fn count_of(d: Delivery<'_>, a: usize, e: usize) -> Option<u64>
    ensures { result ≡ count_of (decoded d.entry.syntax a e d.entry.bytes.now) }
{
    let first = Literals::of(d, a, e).next()?;
    let run = digits(&mut Literals::of(d, a, e), 0);
    if run.behind.is_some() || 15 < run.count {
        return None;
    }
    if first == b'0' && run.count != 1 {
        return None;
    }
    Some(run.value)
}
