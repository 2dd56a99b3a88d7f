// Whether a component has no fault on its row, as far as its bytes tell at once.
ghost use Rattle.std.specs.Prelude.{ℕ, ◌+◌, ◌≤◌, ◌<◌, true, false, cond, ◌&&◌, ◌≡◌, List, length, leb, eqb};
ghost use Rattle.bytewise.specs.Bytes.{part};
ghost use Rattle.plain.specs.Plain.{decoded};
ghost use Rattle.value.specs.Format.{fits_format};
ghost use Rattle.guide.specs.Nodes.{chosen};
ghost use Rattle.guide.specs.workers.PageFault.{text_fault};
ghost use Rattle.page.specs.workers.Words.{codes_in, format_in, free_row};

use crate::coded::{front_word, has_code};
use cut::{Delivery, Syntax};
use value::plain_digits;

// Whether the n bytes from a on surely are on the row that has a word.
fn is_listed(d: &[u8], a: usize, n: usize, row: usize) -> bool
    ensures { result ≡ true → chosen (codes_in row) (part a (a + n) d.now) ≡ true }
{
    let many = row / 1024 % 64;
    if many == 0 {
        return true;
    }
    if 6 < n {
        return false;
    }
    if d.len() < 8 {
        return false;
    }
    if d.len() - 8 < a {
        return false;
    }
    let from = row % 1024;
    has_code(front_word(d, a, n), from, from + many)
}

// Whether so many digits fit a number's format, n..k or nk by its kind; no number has none.
fn has_digits(digits: usize, size: usize, kind: usize) -> bool
    ensures { result ≡ (leb 1 digits && cond (eqb kind 3) (eqb digits size) (leb digits size)) }
{
    if digits == 0 {
        return false;
    }
    if kind == 3 {
        return digits == size;
    }
    digits <= size
}

// Whether the n bytes from a up to b, not none, have the format of the row that has a word.
fn is_sized(d: Delivery<'_>, a: usize, b: usize, n: usize, row: usize) -> bool
    requires { (n ≡ length (part a b d.bytes.now)) × (0 < n) }
    ensures { result ≡ fits_format d.entry.syntax (format_in row) (part a b d.entry.bytes.now) }
{
    let size = row / 1048576;
    let kind = row / 262144 % 4;
    if kind == 0 {
        return n <= size;
    }
    if kind == 1 {
        return n == size;
    }
    has_digits(plain_digits(d, a, b), size, kind)
}

// Whether the row that has a word takes any text of n bytes, not none.
fn is_free(n: usize, row: usize) -> bool
    requires { 0 < n }
    ensures { result ≡ true → (y : Syntax) (t : List ℕ) → n ≡ length t → (fits_format y (format_in row) t ≡ true) × (chosen (codes_in row) t ≡ true) }
{
    if row / 262144 % 4 != 0 {
        return false;
    }
    if row / 1024 % 64 != 0 {
        return false;
    }
    n <= row / 1048576
}

// Whether the component from a up to b, of n bytes and not none, surely has no fault on the row that has a word. One without release marks is its bytes.
pub(crate) fn is_right(d: Delivery<'_>, a: usize, b: usize, n: usize, row: usize) -> bool
    requires { (a ≤ b) × (b ≤ length d.bytes.now) × (0 < n) }
    ensures { result ≡ true → n ≡ length (decoded d.entry.syntax a b d.entry.bytes.now)
        → text_fault d.entry.syntax false (free_row row) (decoded d.entry.syntax a b d.entry.bytes.now) ≡ 0 }
{
    if b - a != n {
        return is_free(n, row);
    }
    if !is_sized(d, a, b, n, row) {
        return false;
    }
    is_listed(d.bytes, a, n, row)
}
