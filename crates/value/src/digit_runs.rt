// How many digits a number has that is read as it stands: no byte of it is taken for a release mark.
ghost use Rattle.std.specs.Prelude.{◌<◌, not, ◌≡◌, length};
ghost use Rattle.bytewise.specs.Bytes.{part};
ghost use Rattle.value.specs.Numeral.{is_digit, digit_count};
ghost use Rattle.value.specs.workers.Scans.{behind_sign};

use bytewise::{ByteTest, first_that, limit_of};
use cut::Delivery;

// The bytes that are no digit.
#[derive(Clone, Copy)]
struct Others;

impl ByteTest for Others {
    ghost holds = { λ _ x. not (is_digit x) };

    // A byte without its high bit is 58 or more, or less than 48, or has that bit. No sum reaches the next byte.
    fn flags(&self, w: u64) -> u64 {
        let low = w & 0x7f7f_7f7f_7f7f_7f7f;
        let above = low + 0x4646_4646_4646_4646;
        let digit = low + 0x5050_5050_5050_5050;
        (above | (digit ^ 0x8080_8080_8080_8080) | w) & 0x8080_8080_8080_8080
    }

    fn passes(&self, x: u8) -> bool {
        !x.is_ascii_digit()
    }
}

// Where a number that begins at a begins without its sign.
fn behind_sign(d: &[u8], a: usize) -> usize
    requires { a < length d.now }
    ensures { result ≡ behind_sign d.now a }
{
    if d[a] == b'-' {
        return a + 1;
    }
    a
}

// How many digits the number has that the bytes from a up to e are; 0 where they are none.
pub fn plain_digits(d: Delivery<'_>, a: usize, e: usize) -> usize
    ensures { result ≡ digit_count d.entry.syntax (part a e d.entry.bytes.now) }
{
    let end = limit_of(d.bytes, e);
    if end <= a {
        return 0;
    }
    let from = behind_sign(d.bytes, a);
    let mark = first_that(&Others, d.bytes, from, end);
    if mark <= from {
        return 0;
    }
    if end <= mark {
        return end - from;
    }
    if d.bytes[mark] != d.syntax.decimal {
        return 0;
    }
    let last = first_that(&Others, d.bytes, mark + 1, end);
    if last <= mark + 1 {
        return 0;
    }
    if last < end {
        return 0;
    }
    end - from - 1
}
