// Bytes, numbers and articles into a lent row.
ghost use Rattle.std.specs.Prelude.{◌+◌, ◌-◌, ◌*◌, ◌≤◌, ◌≡◌, ◌∷◌, pos, length};
ghost use Rattle.print.specs.Report.{word, words, behind};
ghost use Rattle.print.specs.workers.Rows.{put_at, line_with, Poured};

use bytewise::limit_of;
use cut::Delivery;
use plain::literal;
use value::{count_text, decimal_text};

// How many bytes of a part were copied, and where what is left of it begins, if anything is.
#[derive(Clone, Copy, PartialEq, Eq, Debug)]
pub(crate) struct Copied {
    pub length: usize,
    pub left: Option<usize>,
}

// A text behind a blank; the place behind it.
fn put_word(text: &[u8], out: &mut [u8], at: usize) -> usize
    requires { at + 1 + length text.now ≤ length out.old }
    ensures value { result ≡ at + 1 + length text.now }
    ensures out_after { out.new ≡ put_at at (32 ∷ text.now) out.old }
{
    let end = at + 1 + text.len();
    out[at] = b' ';
    out[at + 1..end].copy_from_slice(text);
    end
}

// A number.
fn put_count(n: usize, out: &mut [u8], at: usize) -> usize
    requires { at + 21 ≤ length out.old }
    ensures value { (result ≡ at + length (word (pos n))) × (result ≤ at + 21) }
    ensures out_after { out.new ≡ put_at at (word (pos n)) out.old }
{
    let mut text = [0u8; 20];
    let size = count_text(n as u64, &mut text);
    put_word(&text[20 - size..], out, at)
}

// The same with a sign.
fn put_amount(z: i64, out: &mut [u8], at: usize) -> usize
    requires { at + 21 ≤ length out.old }
    ensures value { (result ≡ at + length (word z)) × (result ≤ at + 21) }
    ensures out_after { out.new ≡ put_at at (word z) out.old }
{
    let mut text = [0u8; 20];
    let size = decimal_text(z, &mut text);
    put_word(&text[20 - size..], out, at)
}

// All numbers of a row, each behind a blank.
fn put_words(ns: &[usize], out: &mut [u8], at: usize) -> usize
    requires { at + length ns.now * 21 ≤ length out.old }
    ensures value { (result ≡ at + length (words ns.now)) × (result ≤ at + length ns.now * 21) }
    ensures out_after { out.new ≡ put_at at (words ns.now) out.old }
{
    let mut place = at;
    for &n in ns {
        place = put_count(n, out, place);
    }
    place
}

// A letter, numbers and a last byte, from a place on.
pub(crate) fn put_line_at(letter: u8, ns: &[usize], last: u8, out: &mut [u8], at: usize) -> usize
    requires { at + length ns.now * 21 + 2 ≤ length out.old }
    ensures value { (result ≡ at + length (line_with letter ns.now last)) × (result ≤ at + length ns.now * 21 + 2) }
    ensures out_after { out.new ≡ put_at at (line_with letter ns.now last) out.old }
{
    out[at] = letter;
    let n = put_words(ns, out, at + 1);
    out[n] = last;
    n + 1
}

// The same at the front of the row.
pub(crate) fn put_line(letter: u8, ns: &[usize], last: u8, out: &mut [u8]) -> usize
    requires { length ns.now * 21 + 2 ≤ length out.old }
    ensures value { (result ≡ length (line_with letter ns.now last)) × (result ≤ length ns.now * 21 + 2) }
    ensures out_after { out.new ≡ put_at 0 (line_with letter ns.now last) out.old }
{
    put_line_at(letter, ns, last, out, 0)
}

// What stands behind an article.
pub(crate) fn put_behind(amount: i64, decimals: i64, out: &mut [u8], at: usize) -> usize
    requires { at + 43 ≤ length out.old }
    ensures value { (result ≡ at + length (behind amount decimals)) × (result ≤ at + 43) }
    ensures out_after { out.new ≡ put_at at (behind amount decimals) out.old }
{
    let m = put_amount(amount, out, at);
    let n = put_amount(decimals, out, m);
    out[n] = b'\n';
    n + 1
}

// The bytes of a part of the delivery without release marks, as many as go into all but the last 64 places of the row.
// They are read by their places, since the place to go on from is answered.
pub(crate) fn put_plain(d: Delivery<'_>, from: usize, to: usize, out: &mut [u8]) -> Copied
    requires { 64 ≤ length out.old }
    ensures { Poured d.entry.syntax d.entry.bytes.now from to (length out.old - 64) out.old out.new result }
{
    let end = limit_of(d.bytes, to);
    let stop = out.len() - 64;
    let mut i = from;
    for n in 0..stop {
        let at = literal(d, i, end);
        if end <= at {
            return Copied {
                length: n,
                left: None,
            };
        }
        out[n] = d.bytes[at];
        i = at + 1;
    }
    // The row is full: that may be all.
    let rest = literal(d, i, end);
    if end <= rest {
        return Copied {
            length: stop,
            left: None,
        };
    }
    Copied {
        length: stop,
        left: Some(i),
    }
}
