// What is told of eight bytes at once where the service characters are the usual ones.
ghost use Rattle.std.specs.Prelude.{◌≡◌, ◌+◌, ◌*◌, ◌%◌, ◌≤◌};
ghost use Rattle.std.specs.Int.Bits.{bit_xor};
ghost use Rattle.bytewise.specs.Eights.{Flagged};
ghost use Rattle.element.specs.Services.{is_mark};

use bytewise::ByteTest;

// The test of one byte for what `marks_in` tells of eight.
#[derive(Clone, Copy)]
pub struct UsualMarks;

impl ByteTest for UsualMarks {
    ghost holds = { λ _. is_mark };

    fn flags(&self, w: u64) -> u64 {
        marks_in(w)
    }

    fn passes(&self, x: u8) -> bool {
        marks_in(x as u64) % 256 != 0
    }
}

const ALL: u64 = 0x8080_8080_8080_8080;

const LOW: u64 = 0x7f7f_7f7f_7f7f_7f7f;

// Which of eight bytes are a usual service character or are not allowed, and with these which are `;` or `>`: they differ from `:` and `?` in two bits
// only, and
// one test without these bits takes less time than two. A byte with its high bit set is no service character.
pub fn marks_in(w: u64) -> u64
    ensures { Flagged w is_mark result }
{
    let low = w & LOW;
    let ends = differing(low, 0x27)
        & differing(low, 0x2b)
        & differing(low & 0x7a7a_7a7a_7a7a_7a7a, 0x3a);
    let text = low + 0x6060_6060_6060_6060;
    let delete = low + 0x0101_0101_0101_0101;
    (((ends & (delete ^ ALL)) | w) & text & ALL) ^ ALL
}

// The high bit of each byte that is not x: they differ in a bit that the sum with 127 carries to the high one.
fn differing(low: u64, x: u8) -> u64
    requires { low ≤ 0x7f7f_7f7f_7f7f_7f7f }
    ensures { result ≡ bit_xor low (0x0101_0101_0101_0101 * (x % 128)) + 0x7f7f_7f7f_7f7f_7f7f }
{
    (low ^ 0x0101_0101_0101_0101 * ((x % 128) as u64)) + LOW
}
