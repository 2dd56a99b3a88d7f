// The part of the delivery that is one component of a segment.
ghost use Rattle.std.specs.Prelude.{◌≡◌, IfSome, ◌≤◌, ◌<◌, length};
ghost use Rattle.bytewise.specs.Bytes.{part};
ghost use Rattle.element.specs.Components.{component_at};

use crate::ahead::Scan;
use crate::endings::{Ending, ending_at};
use crate::scan::component_from;
use crate::services::Services;
use crate::usual::has_usual_services;
use bytewise::limit_of;
use cut::Delivery;

#[derive(Clone, Copy, PartialEq, Eq, Debug)]
pub struct Span {
    pub start: usize,
    pub end: usize,
}

impl Span {
    // Its bytes; an end past the delivery counts as the delivery's end.
    pub fn part(self, d: &[u8]) -> &[u8]
        ensures { result.now ≡ part self.start self.end d.now }
    {
        let limit = limit_of(d, self.end);
        if limit <= self.start {
            return &[];
        }
        &d[self.start..limit]
    }
}

// The component by words of eight bytes, each tested once. It is told, if the service characters are the usual ones and each component up to it, without a
// release mark in it, ends at a service character that such a word holds. The elements and components before it that are left are counted down. Each branch
// asks one thing of the byte, so a match on what it ends would be no plainer.
fn quick_at(
    d: Delivery<'_>,
    start: usize,
    limit: usize,
    element: usize,
    component: usize,
) -> Option<Span>
    requires { (start < limit) × (limit ≤ length d.bytes.now) }
    ensures { IfSome result (λ s. s ≡ component_at d.entry.syntax d.entry.bytes.now start limit element component) }
{
    if !has_usual_services(d.syntax) {
        return None;
    }
    let mut e = element;
    let mut c = component;
    let services = Services(d.syntax);
    let mut scan = Scan::untested(start);
    // From service character to service character: the scan says where the next turn begins.
    loop {
        let behind = scan.step(&services, d.bytes)?;
        let stop = behind.at - 1;
        if limit <= stop {
            return None;
        }
        let x = d.bytes[stop];
        if x == d.syntax.release {
            return None;
        }
        if e == 0 {
            if c == 0 {
                return Some(Span {
                    start: scan.at,
                    end: stop,
                });
            }
            if x != d.syntax.component {
                return Some(Span { start, end: start });
            }
            c -= 1;
        } else {
            if x == d.syntax.terminator {
                return Some(Span { start, end: start });
            }
            if x == d.syntax.element {
                e -= 1;
            }
        }
        scan = behind;
    }
}

// Component by component, for any service characters and any bytes.
fn each_at(d: Delivery<'_>, start: usize, limit: usize, element: usize, component: usize) -> Span
    requires { (start < limit) × (limit ≤ length d.bytes.now) }
    ensures { result ≡ component_at d.entry.syntax d.entry.bytes.now start limit element component }
{
    let mut e = 0;
    let mut c = 0;
    let mut i = start;
    // From component to component: each says where the next turn begins.
    loop {
        let stop = component_from(d, i, limit).end;
        if e == element && c == component {
            return Span {
                start: i,
                end: stop,
            };
        }
        match ending_at(d, stop, limit) {
            Ending::Segment => return Span { start, end: start },
            Ending::Element => {
                e += 1;
                c = 0;
            }
            Ending::Component => c += 1,
        }
        i = stop + 1;
    }
}

// Component `component` of element `element`, both counted from 0, where element 0 is the tag; a missing one is the empty part at the
// segment's start.
pub fn component_at(
    d: Delivery<'_>,
    start: usize,
    end: usize,
    element: usize,
    component: usize,
) -> Span
    ensures { result ≡ component_at d.entry.syntax d.entry.bytes.now start end element component }
{
    let limit = limit_of(d.bytes, end);
    if limit <= start {
        return Span { start, end: start };
    }
    if let Some(span) = quick_at(d, start, limit, element, component) {
        return span;
    }
    each_at(d, start, limit, element, component)
}
