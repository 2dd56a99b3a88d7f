// Whether a component is one of its row's codes.
ghost use Rattle.std.specs.Prelude.{◌+◌, ◌-◌, ◌^◌, ◌≤◌, ◌≡◌, [], length};
ghost use Rattle.bytewise.specs.Bytes.{part};
ghost use Rattle.plain.specs.Plain.{decoded};
ghost use Rattle.plain.specs.Words.{word_of};
ghost use Rattle.guide.specs.Nodes.{chosen};
ghost use Rattle.page.specs.workers.Columns.{all_codes};
ghost use Rattle.page.specs.workers.Keys.{key_among};
ghost use Rattle.page.specs.workers.Words.{span, codes_in};

use crate::words::code_word;
use cut::{Delivery, Syntax};
use plain::word_of;

// Whether the number is that of a code from one place up to another. All are compared: which of them it is cannot be foreseen, so that a loop that ends at
// the one found is slower.
pub(crate) fn has_code(key: u64, from: usize, next: usize) -> bool
    ensures { result ≡ key_among key (span all_codes [] from (next - from)) }
{
    let mut found = false;
    for n in from..next {
        found |= key == code_word(n);
    }
    found
}

// The number above those of n bytes.
fn above(n: usize) -> u64
    requires { n ≤ 6 }
    ensures { (result ≡ 256 ^ n) × (1 ≤ result) × (result ≤ 256 ^ 6) }
{
    match n {
        0 => 1,
        1 => 0x100,
        2 => 0x1_0000,
        3 => 0x100_0000,
        4 => 0x1_0000_0000,
        5 => 0x100_0000_0000,
        _ => 0x1_0000_0000_0000,
    }
}

// The number of the n bytes from a on, taken from the eight that begin with them.
pub(crate) fn front_word(d: &[u8], a: usize, n: usize) -> u64
    requires { (n ≤ 6) × (a + 8 ≤ length d.now) }
    ensures { result ≡ word_of (part a (a + n) d.now) }
{
    let top = above(n);
    (bytewise::eight_at(d, a) & (top - 1)) + top
}

// The number of a component of n bytes. One without release marks is the beginning of the eight bytes that begin with it, where eight stand there.
fn key_of(d: Delivery<'_>, a: usize, b: usize, n: usize) -> u64
    requires { n ≡ length (decoded d.syntax a b d.bytes.now) }
    ensures { result ≡ word_of (decoded d.entry.syntax a b d.entry.bytes.now) }
{
    if 6 < n {
        return 0;
    }
    if d.bytes.len() < 8 {
        return word_of(d, a, b);
    }
    if d.bytes.len() - 8 < a {
        return word_of(d, a, b);
    }
    if a + n != b {
        return word_of(d, a, b);
    }
    front_word(d.bytes, a, n)
}

// Whether a component of n bytes is on the row that has a word; a row without codes takes any text. The characters and the bytes come apart: of a slice it
// is known that no byte is above 255, and that is lost behind a struct's reference.
pub(crate) fn listed(y: Syntax, d: &[u8], a: usize, b: usize, n: usize, row: usize) -> bool
    requires { n ≡ length (decoded y a b d.now) }
    ensures { result ≡ chosen (codes_in row) (decoded y a b d.now) }
{
    let many = row / 1024 % 64;
    if many == 0 {
        return true;
    }
    let from = row % 1024;
    let delivery = Delivery {
        syntax: y,
        bytes: d,
    };
    has_code(key_of(delivery, a, b, n), from, from + many)
}
