// What comes of one segment: its node, or its first fault in the order 12, 10, 11, 13, 15 or 25, 14, components, 21 or 22.
ghost use Rattle.std.specs.Prelude.{suc, ◌<◌, ◌^◌, ◌≡◌, ltb, Err};
ghost use Rattle.guide.specs.Answers.{refused};
ghost use Rattle.guide.specs.Choices.{pickℕ};
ghost use Rattle.guide.specs.Reasons.{number_of_reason};
ghost use Rattle.guide.specs.declared.edition.Edition.{Edition as AnyEdition};
ghost use Rattle.verdict.specs.workers.Segments.{answer_at, content_answer, placed_answer, told_of, CountedOn};

use crate::faults::rule_fault;
use crate::kept::Kept;
use crate::roles::{Role, role_of};
use cut::{Delivery, cut_at};
use element::Span;
use guide::{Edition, Reason};
use judge::{Misplaced, place};
use page::{Faulty, bytes_fault, read};

// A segment that is placed: its node, what that is to the rules of a message, where the first component behind the tag stands and the first of element 3,
// and the byte after it.
#[derive(Clone, Copy)]
pub struct Found {
    pub node: usize,
    pub role: Role,
    pub first: Span,
    pub third: Span,
    pub end: usize,
}

// A segment that is refused: its first fault, the row of the node that is named, and the byte after it.
#[derive(Clone, Copy, PartialEq, Eq, Debug)]
pub struct Blamed {
    pub reason: Reason,
    pub node: usize,
    pub end: usize,
}

// Segment i, which begins at start, once it has the node n: the fault of its bytes, of its components, and then 21 or 22.
fn content_answer(
    edition: Edition,
    d: Delivery<'_>,
    start: usize,
    i: usize,
    n: usize,
    kept: Kept,
) -> Result<Found, Blamed>
    requires { suc kept.positions < 2 ^ 64 }
    ensures { told_of result ≡ answer_at edition d.entry.syntax d.entry.bytes.now start (content_answer edition d.entry.syntax d.entry.bytes.now i kept n) }
{
    let page = match read(edition, n, d, start) {
        Ok(page) => page,
        Err(fault) => return Err(page_refused(fault, n)),
    };
    let role = role_of(edition, n);
    if let Err(reason) = rule_fault(edition, d, start, page, i, role, kept) {
        return Err(Blamed {
            reason,
            node: n,
            end: page.end,
        });
    }
    Ok(Found {
        node: n,
        role,
        first: page.first,
        third: page.third,
        end: page.end,
    })
}

// The fault that was read of a segment with the node n: for 10, 11 and 12 no node is named.
fn page_refused(fault: Faulty, n: usize) -> Blamed
    ensures { result ≡ record { reason = fault.reason; node = pickℕ (ltb (number_of_reason fault.reason) 13) 0 n; end = fault.end } }
{
    let of_bytes = u32::from(fault.reason) < 13;
    Blamed {
        reason: fault.reason,
        node: if of_bytes { 0 } else { n },
        end: fault.end,
    }
}

// The segment that begins at `at`, which placing refuses: 12, 10 and 11 come before that, whatever the edition.
fn misplaced(d: Delivery<'_>, at: usize, refusal: Misplaced) -> Blamed
    ensures { (ed : AnyEdition) → told_of (Err result)
        ≡ answer_at ed d.entry.syntax d.entry.bytes.now at (λ _. refused (number_of_reason refusal.reason) refusal.node) }
{
    let Some(cut) = cut_at(d, at) else {
        return Blamed {
            reason: Reason::Unterminated,
            node: 0,
            end: at,
        };
    };
    if let Err(reason) = bytes_fault(d, at, cut.end, cut.piece) {
        return Blamed {
            reason,
            node: 0,
            end: cut.end,
        };
    }
    Blamed {
        reason: refusal.reason,
        node: refusal.node,
        end: cut.end,
    }
}

// Segment i, which begins at start; `counts` are those of placing, after it only where it fits. It is placed before its end is looked for: where its bytes
// have no fault, what follows it makes no difference to its node.
pub(crate) fn segment_answer(
    edition: Edition,
    d: Delivery<'_>,
    start: usize,
    i: usize,
    kept: Kept,
    counts: &mut [u32; 96],
) -> Result<Found, Blamed>
    requires { suc kept.positions < 2 ^ 64 }
    ensures value { told_of result
        ≡ answer_at edition d.entry.syntax d.entry.bytes.now start (placed_answer edition d.entry.syntax d.entry.bytes.now i kept counts.old) }
    ensures counted_on { CountedOn edition (told_of result) counts.old counts.new }
{
    match place(edition, d, start, d.bytes.len(), kept.last, counts) {
        Ok(n) => content_answer(edition, d, start, i, n, kept),
        Err(refusal) => Err(misplaced(d, start, refusal)),
    }
}
