// The article of a LIN in the table of those that came. Positions that agree have the same article, so where no article may have come twice,
// nothing else of the positions is compared.
ghost use Rattle.std.specs.Prelude.{◌+◌, ◌≤◌, ◌<◌, ◌≡◌, length};
ghost use Rattle.plain.specs.Plain.{decoded};
ghost use Rattle.sieve.specs.Articles.{Noted};
ghost use Rattle.sieve.specs.workers.Words.{word_mixed, gathered_unless, closed_by, begun, print_from, article_print, Gathering};

use crate::came::{came, note};
use bytewise::{alike, eight_at, limit_of};
use cut::{Delivery, Syntax};
use element::frees_next;

// A print, and behind it fewer than eight bytes that are not in it yet: the number they make, and how much the next one counts.
#[derive(Clone, Copy, PartialEq, Eq, Debug)]
struct Gathered {
    print: u32,
    number: u64,
    scale: u64,
}

// The print, and then eight bytes. The factors are odd, near 2^32 divided by the golden ratio and by 2, so that every byte changes the upper
// half of the print.
fn mixed_word(a: u32, v: u64) -> u32
    ensures { result ≡ word_mixed a v }
{
    let t = (a as u64 + v % 4294967296) % 4294967296 * 2654435769;
    let u = (t / 4294967296 + v / 4294967296) % 4294967296 * 2246822519;
    ((u / 4294967296 + u % 4294967296 + t % 4294967296) % 4294967296) as u32
}

// One byte more, unless it is a release mark.
fn gather(g: Gathered, mark: bool, x: u8) -> Gathered
    requires { Gathering g }
    ensures { (result ≡ gathered_unless mark g x) × Gathering result }
{
    if mark {
        return g;
    }
    let v = g.number + g.scale * (x as u64);
    if g.scale <= 281474976710656 {
        return Gathered {
            print: g.print,
            number: v,
            scale: g.scale * 256,
        };
    }
    Gathered {
        print: mixed_word(g.print, v),
        number: 0,
        scale: 1,
    }
}

fn closed(g: Gathered) -> u32
    ensures { result ≡ closed_by g }
{
    if g.scale == 1 {
        return g.print;
    }
    mixed_word(g.print, g.number)
}

// The print `before`, and then the bytes from `from` up to `end`, a byte at a time.
fn print_rest(y: Syntax, d: &[u8], from: usize, end: usize, before: u32) -> u32
    requires { end ≤ length d.now }
    ensures { result ≡ print_from (begun before) (decoded y from end d.now) }
{
    let mut g = Gathered {
        print: before,
        number: 0,
        scale: 1,
    };
    let mut released = false;
    for i in from..end {
        let x = d[i];
        released = frees_next(y, released, x);
        g = gather(g, released, x);
    }
    closed(g)
}

// The same where fewer than eight bytes are left: they are the last of the eight before the end, and a shift leaves out those before them.
fn print_last(y: Syntax, d: &[u8], from: usize, end: usize, before: u32) -> u32
    requires { (8 ≤ end) × (end ≤ length d.now) × (end < from + 8) }
    ensures { result ≡ print_from (begun before) (decoded y from end d.now) }
{
    if end <= from {
        return before;
    }
    let w = eight_at(d, end - 8);
    let passed = 8 * (from - (end - 8));
    if alike(w, y.release) >> passed != 0 {
        return print_rest(y, d, from, end, before);
    }
    mixed_word(before, w >> passed)
}

// Eight bytes go into the print at once, up to the first word that has a release mark. The characters and the bytes come apart, as in `print_last` and
// `print_rest`: of a slice it is known that no byte is above 255, and that is lost behind a struct's reference.
fn print_article(y: Syntax, d: &[u8], a: usize, e: usize) -> u32
    ensures { result ≡ article_print (decoded y a e d.now) }
{
    let end = limit_of(d, e);
    if end < 8 {
        return print_rest(y, d, a, end, 0);
    }
    let mut i = a;
    let mut print = 0;
    // Eight bytes at a time, up to a release mark.
    while i <= end - 8 {
        let w = eight_at(d, i);
        if alike(w, y.release) != 0 {
            return print_rest(y, d, i, end, print);
        }
        print = mixed_word(print, w);
        i += 8;
    }
    print_last(y, d, i, end, print)
}

// Notes an article, the part from a up to e without release marks, in the table of those that came; whether it may have come before.
pub fn note_article(d: Delivery<'_>, a: usize, e: usize, t: &mut [u64; 256]) -> bool
    ensures { Noted t.old t.new (decoded d.entry.syntax a e d.entry.bytes.now) result }
{
    let f = print_article(d.syntax, d.bytes, a, e);
    let again = came(t, f);
    note(t, f);
    again
}
