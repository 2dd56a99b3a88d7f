// The pass over a segment that has no fault, from state to state of a table.
ghost use Rattle.std.specs.Prelude.{◌/◌, ◌%◌, true, ◌≡◌, IfSome};
ghost use Rattle.guide.specs.Options.{unless_0};
ghost use Rattle.guide.specs.Page.{Page};
ghost use Rattle.page.specs.workers.Cells.{is_tag_word, FirstCell, steps_of, may_end, next_of, keep_of};
ghost use Rattle.page.specs.workers.Quick.{Begun, FaultlessAt};

use crate::cells::cell;
use crate::marks::clean_on;
use crate::places::{Places, nowhere};
use crate::reads::Reading;
use crate::right::is_right;
use cut::{Delivery, Syntax};
use element::{Scan, Span};

// The places once a component from a up to b is known, by what its row keeps of it: a field of a packed word, read here only.
fn keep(kept: usize, a: usize, b: usize, places: Places) -> Places
    ensures { result ≡ keep_of kept (record { start = a; end = b }) places }
{
    if kept == 0 {
        return places;
    }
    if kept == 1 {
        let third = places.third;
        return Places {
            first: Span { start: a, end: b },
            third,
        };
    }
    let first = places.first;
    Places {
        first,
        third: Span { start: a, end: b },
    }
}

// The steps of a cell for a component of n bytes: those behind an empty one stand above those behind a filled one.
fn steps(w: u64, n: usize) -> u64
    ensures { result ≡ steps_of w n }
{
    if n == 0 {
        return w / 0x1_0000;
    }
    w
}

// Whether the segment may end behind it.
fn may_end(w: u64, n: usize) -> bool
    ensures { result ≡ may_end w n }
{
    if n == 0 {
        return w / 0x2_0000_0000 % 2 == 1;
    }
    w / 0x1_0000_0000 % 2 == 1
}

// The state behind a separator; none where the byte x is none, or the component is the last.
fn next_state(y: Syntax, x: u8, t: u64) -> Option<usize>
    ensures { result ≡ unless_0 (next_of y x t) }
{
    let s = if x == y.element {
        t / 0x100 % 256
    } else if x == y.component {
        t % 256
    } else {
        0
    };
    if s == 0 {
        return None;
    }
    Some(s as usize)
}

// Whether the segment begins with the four bytes of a word, a tag and the element separator; false too, where the service characters are not the usual
// ones or fewer than eight bytes are left. The characters and the bytes come apart: of a slice it is known that no byte is above 255, and that is lost
// behind a struct's reference.
fn is_begun(y: Syntax, d: &[u8], start: usize, tag: u64) -> bool
    requires { is_tag_word tag ≡ true }
    ensures { result ≡ true → Begun y d.now start }
{
    if !element::has_usual_services(y) {
        return false;
    }
    if d.len() < 8 {
        return false;
    }
    if d.len() - 8 < start {
        return false;
    }
    bytewise::eight_at(d, start) % 0x1_0000_0000 == tag
}

// The segment that begins at `start`, against the tag and the page of a first word; none, where it is not told that there is no fault.
// Each component says where the next turn begins, so no `for` counts it.
pub(crate) fn faultless_from(d: Delivery<'_>, start: usize, first: u64) -> Option<Reading>
    requires { is_tag_word (first / 0x1_0000_0000) ≡ true }
    ensures { (page : Page) → FirstCell (first % 0x1_0000_0000) page → IfSome result (FaultlessAt d.entry.syntax page d.entry.bytes.now start) }
{
    if !is_begun(d.syntax, d.bytes, start, first / 0x1_0000_0000) {
        return None;
    }
    let mut scan = Scan::untested(start + 4);
    let mut places = nowhere(start);
    let mut s = (first % 0x1_0000_0000) as usize;
    loop {
        let w = cell(s);
        let a = scan.at;
        let p = clean_on(d, scan)?;
        let end = p.end;
        let row = (w / 0x4_0000_0000) as usize;
        places = keep(row / 65536 % 4, a, end, places);
        if 0 < p.length {
            if !is_right(d, a, end, p.length, row) {
                return None;
            }
        }
        let x = d.bytes[end];
        if x == d.syntax.terminator {
            if may_end(w, p.length) {
                return Some(Reading {
                    first: places.first,
                    third: places.third,
                    end: end + 1,
                });
            }
            return None;
        }
        s = next_state(d.syntax, x, steps(w, p.length))?;
        scan = p.scan;
    }
}
