// A number as it is written: sign, digits, mark, digits. One pass, shared by formats, prices and counts.
ghost use Rattle.std.specs.Prelude.{◌<◌, ◌^◌, true, ◌≡◌, length};
ghost use Rattle.plain.specs.Plain.{decoded, literals_left};
ghost use Rattle.value.specs.Numeral.{is_digit};
ghost use Rattle.value.specs.workers.Scans.{Pushed, DigitRun, numeral_of, unsigned_of, counted_as};

use cut::{Delivery, Syntax};
use plain::Literals;

// Digits that were read: how many, their value, and the byte that was read behind them, if one stood there.
#[derive(Clone, Copy, PartialEq, Eq, Debug)]
pub(crate) struct Run {
    pub count: usize,
    pub value: u64,
    pub behind: Option<u8>,
}

// A number: its value, if it has at most fifteen digits, how many it has, and how many of these stand behind the mark.
#[derive(Clone, Copy, PartialEq, Eq, Debug)]
pub(crate) struct Numeral {
    pub minus: bool,
    pub value: Option<u64>,
    pub digits: usize,
    pub decimals: usize,
}

// The value with the digit x behind it; a value of sixteen digits stays, since it is not asked for.
fn pushed(value: u64, x: u8) -> u64
    requires value_bound { value < 10 ^ 16 }
    requires x_value { is_digit x ≡ true }
    ensures { Pushed value x result }
{
    if value < 1_000_000_000_000_000 {
        return value * 10 + (x - b'0') as u64;
    }
    value
}

// The digits that come next, put behind the value that was read so far.
pub(crate) fn digits(bytes: &mut Literals, value: u64) -> Run
    requires room { length (literals_left bytes.old) < 2 ^ 64 }
    requires value_bound { value < 10 ^ 16 }
    ensures { DigitRun (literals_left bytes.old) value result (literals_left bytes.new) }
{
    let mut count = 0;
    let mut sum = value;
    while let Some(x) = bytes.next() {
        if !x.is_ascii_digit() {
            return Run {
                count,
                value: sum,
                behind: Some(x),
            };
        }
        sum = pushed(sum, x);
        count += 1;
    }
    Run {
        count,
        value: sum,
        behind: None,
    }
}

// A number of as many digits and decimals: only up to fifteen digits are valued.
fn counted(minus: bool, value: u64, digits: usize, decimals: usize) -> Numeral
    ensures { result ≡ counted_as minus value digits decimals }
{
    let value = if 15 < digits { None } else { Some(value) };
    Numeral {
        minus,
        value,
        digits,
        decimals,
    }
}

// The number that these are, behind a minus or not.
fn unsigned_numeral(y: Syntax, bytes: &mut Literals, minus: bool) -> Option<Numeral>
    requires { length (literals_left bytes.old) < 2 ^ 64 }
    ensures { result ≡ unsigned_of y minus (literals_left bytes.old) }
{
    let whole = digits(bytes, 0);
    if whole.count == 0 {
        return None;
    }
    let Some(mark) = whole.behind else {
        return Some(counted(minus, whole.value, whole.count, 0));
    };
    if mark != y.decimal {
        return None;
    }
    let fraction = digits(bytes, whole.value);
    if fraction.count == 0 || fraction.behind.is_some() {
        return None;
    }
    Some(counted(
        minus,
        fraction.value,
        whole.count + fraction.count,
        fraction.count,
    ))
}

// The number that the part is, decoded.
pub(crate) fn numeral_of(d: Delivery<'_>, a: usize, e: usize) -> Option<Numeral>
    ensures { result ≡ numeral_of d.entry.syntax (decoded d.entry.syntax a e d.entry.bytes.now) }
{
    let mut bytes = Literals::of(d, a, e);
    if bytes.next()? == b'-' {
        return unsigned_numeral(d.syntax, &mut bytes, true);
    }
    unsigned_numeral(d.syntax, &mut Literals::of(d, a, e), false)
}
