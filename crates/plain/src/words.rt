// The bytes of a part without release marks as one number, so that it is compared with a code in one step and no byte is copied.
ghost use Rattle.std.specs.Prelude.{◌≡◌, ℕ, ◌<◌, ◌≤◌, false, ◌≢◌, IfSome};
ghost use Rattle.bytewise.specs.Eights.{byte_of};
ghost use Rattle.plain.specs.workers.Fronts.{FrontWord};
ghost use Rattle.plain.specs.Plain.{decoded};
ghost use Rattle.plain.specs.Words.{Bytes, word_of};

use crate::literals::Literals;
use cut::{Delivery, Syntax};
use std::num::wrapping_sub_u64;

// What the seventh of some bytes counts.
const ABOVE_SIX: u64 = 1 << 48;

// The number of the part, decoded; 0 where it has more bytes than any code. A number and no Option: keys are compared with codes, of which none is 0.
pub fn word_of(d: Delivery<'_>, a: usize, e: usize) -> u64
    ensures { result ≡ word_of (decoded d.entry.syntax a e d.entry.bytes.now) }
{
    match word_at_once(d, a, e) {
        Some(word) => word,
        None => released_word(d, a, e),
    }
}

// The same where the part has at most six bytes and eight stand from its first on, so that none is past the delivery; nothing where that does not hold
// or one of its bytes may be the release character.
pub(crate) fn word_at_once(d: Delivery<'_>, a: usize, e: usize) -> Option<u64>
    ensures { IfSome result (λ word. Bytes (decoded d.entry.syntax a e d.entry.bytes.now) × (word ≢ 0) × (word
        ≡ word_of (decoded d.entry.syntax a e d.entry.bytes.now))) }
{
    let row = d.row();
    if e < a || 6 < e - a || row.len() < 8 || row.len() - 8 < a {
        return None;
    }
    front_word(d.syntax, bytewise::eight_at(row, a), e - a)
}

// The number of the first n of eight bytes; nothing where one of them may be the release character.
fn front_word(y: Syntax, w: u64, n: usize) -> Option<u64>
    requires { n ≤ 6 }
    ensures { FrontWord y w n result }
{
    let scale = 1u64 << (8 * n);
    let front = w & (scale - 1);
    if may_hold(front, y.release) {
        return None;
    }
    Some(front + scale)
}

// Whether one of eight bytes may be x: a difference of 0, less 1, has its high bit set. So has one from 129 on, and no code holds such a byte.
fn may_hold(w: u64, x: u8) -> bool
    ensures { result ≡ false → (k : ℕ) → k < 8 → byte_of w k ≢ x }
{
    let v = w ^ 0x0101_0101_0101_0101 * u64::from(x);
    wrapping_sub_u64(v, 0x0101_0101_0101_0101) & 0x8080_8080_8080_8080 != 0
}

// The same as `word_of` where any byte may be a release mark: seven decoded bytes at most, and rarely.
fn released_word(d: Delivery<'_>, a: usize, e: usize) -> u64
    ensures { result ≡ word_of (decoded d.entry.syntax a e d.entry.bytes.now) }
{
    let mut sum = 0;
    let mut scale = 1;
    for x in Literals::of(d, a, e) {
        if scale == ABOVE_SIX {
            return 0;
        }
        sum += scale * u64::from(x);
        scale *= 256;
    }
    sum + scale
}
