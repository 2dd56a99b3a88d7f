// Whether two segments agree: both are walked once, component by component, and nothing is copied.
ghost use Rattle.std.specs.Prelude.{◌≡◌};
ghost use Rattle.bytewise.specs.Bytes.{part};
ghost use Rattle.agree.specs.Agreement.{agree_but};
ghost use Rattle.agree.specs.workers.Visits.{not_past, shown_by, onward_by};

use cut::Delivery;
use element::{Cursor, Span, Visit};
use plain::same_plain;

// Whether two segments agree in all components but those of the element `skip`.
pub(crate) fn segments_agree(d: Delivery<'_>, a: Span, b: Span, skip: usize) -> bool
    ensures { result ≡ agree_but d.entry.syntax skip (part a.start a.end d.entry.bytes.now) (part b.start b.end d.entry.bytes.now) }
{
    let mut u = Cursor::new(d.bytes, a.start, a.end).step(d);
    let mut v = Cursor::new(d.bytes, b.start, b.end).step(d);
    // Two walks side by side, of which one may wait, so no `for` counts it.
    while u.is_some() || v.is_some() {
        let s = shown(u, v, skip);
        let t = shown(v, u, skip);
        if !same_plain(d, s.start, s.end, t.start, t.end) {
            return false;
        }
        (u, v) = (onward(d, u, v), onward(d, v, u));
    }
    true
}

// Whether a component does not stand behind the next one of the other segment. Two tests: std's order of pairs takes longer.
fn not_past(u: Visit, v: Option<Visit>) -> bool
    ensures { result ≡ not_past u v }
{
    match v {
        Some(v) => {
            if u.element == v.element {
                u.component <= v.component
            } else {
                u.element < v.element
            }
        }
        None => true,
    }
}

// What of a component is compared with the other segment's next one: nothing of the element `skip`, and nothing if it stands behind that one,
// which then is missing here.
fn shown(u: Option<Visit>, v: Option<Visit>, skip: usize) -> Span
    ensures { result ≡ shown_by skip u v }
{
    match u {
        Some(u) if u.element != skip && not_past(u, v) => Span {
            start: u.start,
            end: u.end,
        },
        _ => Span { start: 0, end: 0 },
    }
}

// The next component after that comparison: one that stands behind the other's waits.
fn onward(d: Delivery<'_>, u: Option<Visit>, v: Option<Visit>) -> Option<Visit>
    ensures { result ≡ onward_by d.entry.syntax d.entry.bytes.now u v }
{
    let here = u?;
    if not_past(here, v) {
        here.next.step(d)
    } else {
        u
    }
}
