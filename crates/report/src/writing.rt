// Lines to standard output, and why some are missing. A line is written part by part, so that nothing follows a part that was not.
use schaumtruhe::Refusal;
use std::io;

// A write failed; or the library gave no prices though there are more.
#[derive(Clone, Copy, PartialEq, Eq, Debug)]
pub(crate) enum Missing {
    Unwritten,
    NoPrices,
}

impl From<io::Error> for Missing {
    fn from(_error: io::Error) -> Missing {
        Missing::Unwritten
    }
}

impl From<Refusal> for Missing {
    fn from(_refusal: Refusal) -> Missing {
        Missing::NoPrices
    }
}

// A number behind a blank.
fn put_count(rt: &impl Print, n: usize) -> io::Result<()> {
    rt.write_all(b" ")?;
    rt.print(n)
}

// The same for a number with a sign.
pub(crate) fn put_signed(rt: &impl Print, n: i64) -> io::Result<()> {
    let mut text = [0u8; 20];
    let length = value::decimal_text(n, &mut text);
    rt.write_all(b" ")?;
    rt.write_all(&text[20 - length..])
}

// A letter and numbers.
pub(crate) fn put_line(rt: &impl Print, letter: &[u8], ns: &[usize]) -> io::Result<()> {
    rt.write_all(letter)?;
    for &n in ns {
        put_count(rt, n)?;
    }
    rt.write_all(b"\n")
}

// To standard error.
pub(crate) fn complain(rt: &impl Eprint, text: &str) {
    let _ = rt.eprint(text);
}
