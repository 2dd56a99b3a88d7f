// The fault of one component, of n bytes with its releases removed, on the row that has a word.
ghost use Rattle.std.specs.Prelude.{◌/◌, ◌%◌, ◌≤◌, ◌<◌, ◌≡◌, false, ◌&&◌, length};
ghost use Rattle.value.specs.Format.{fits_format};
ghost use Rattle.plain.specs.Plain.{decoded};
ghost use Rattle.guide.specs.workers.PageFault.{text_fault};
ghost use Rattle.guide.specs.Choices.{pickℕ};
ghost use Rattle.guide.specs.Reasons.{fault_number};
ghost use Rattle.guide.specs.workers.Moods.{is_must};
ghost use Rattle.page.specs.workers.Words.{format_in, row_in};

use crate::coded::listed;
use cut::Delivery;
use guide::Reason;
use value::{Format, fits};

pub(crate) fn is_must(row: usize) -> bool
    ensures { result ≡ is_must (row_in row) }
{
    2 <= row / 65536 % 4
}

// The format of a row for numbers.
fn number_format(row: usize) -> Format
    requires { 2 ≤ row / 262144 % 4 }
    ensures { result ≡ format_in row }
{
    let size = row / 1048576;
    if row / 262144 % 4 == 2 {
        return Format::NUpTo(size);
    }
    Format::N(size)
}

// Whether a component that is not empty has its row's format.
fn is_formed(d: Delivery<'_>, a: usize, b: usize, n: usize, row: usize) -> bool
    requires { (n ≡ length (decoded d.syntax a b d.bytes.now)) × (0 < n) }
    ensures { result ≡ fits_format d.entry.syntax (format_in row) (decoded d.entry.syntax a b d.entry.bytes.now) }
{
    let kind = row / 262144 % 4;
    if 2 <= kind {
        return fits(d, a, b, number_format(row));
    }
    let size = row / 1048576;
    if kind == 0 {
        return n <= size;
    }
    n == size
}

// The fault of a component that is not empty.
fn filled_fault(d: Delivery<'_>, a: usize, b: usize, n: usize, row: usize) -> Result<(), Reason>
    requires { (n ≡ length (decoded d.syntax a b d.bytes.now)) × (0 < n) }
    ensures { fault_number result ≡ text_fault d.entry.syntax false (row_in row) (decoded d.entry.syntax a b d.entry.bytes.now) }
{
    if row / 65536 % 4 == 0 {
        return Err(Reason::NotUsed);
    }
    if !is_formed(d, a, b, n, row) {
        return Err(Reason::WrongFormat);
    }
    if !listed(d.syntax, d.bytes, a, b, n, row) {
        return Err(Reason::WrongCode);
    }
    Ok(())
}

// The fault of an empty component.
fn empty_fault(row: usize, asked: bool) -> Result<(), Reason>
    ensures { fault_number result ≡ pickℕ (is_must (row_in row) && asked) 17 0 }
{
    if !asked {
        return Ok(());
    }
    if is_must(row) {
        return Err(Reason::ComponentMissing);
    }
    Ok(())
}

// The fault of a component: not used, missing, wrong format, code not on its page.
pub(crate) fn text_fault(
    d: Delivery<'_>,
    a: usize,
    b: usize,
    n: usize,
    row: usize,
    asked: bool,
) -> Result<(), Reason>
    requires { n ≡ length (decoded d.syntax a b d.bytes.now) }
    ensures { fault_number result ≡ text_fault d.entry.syntax asked (row_in row) (decoded d.entry.syntax a b d.entry.bytes.now) }
{
    if n == 0 {
        return empty_fault(row, asked);
    }
    filled_fault(d, a, b, n, row)
}
