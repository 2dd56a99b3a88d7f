// The segment that begins at a place: its end, and its first fault in the order 12, 10, 11, then the page's.
ghost use Rattle.std.specs.Prelude.{◌≡◌};
ghost use Rattle.guide.specs.Reasons.{fault_number};
ghost use Rattle.guide.specs.workers.Judging.{bytes_fault};
ghost use Rattle.page.specs.Reading.{segment_in, reading_of, numbers_of};

use crate::cells::first_cell;
use crate::examining::examined;
use crate::quick::faultless_from;
use clean::{allowed, tagged};
use cut::{Delivery, cut_at};
use element::Span;
use guide::{Edition, Reason};

// Where two components of a segment without a fault stand that the rules of a message ask for, the first behind the tag and the first of element 3, and the
// byte after the segment.
#[derive(Clone, Copy, PartialEq, Eq, Debug)]
pub struct Reading {
    pub first: Span,
    pub third: Span,
    pub end: usize,
}

// The first fault of a segment, and the byte after it.
#[derive(Clone, Copy, PartialEq, Eq, Debug)]
pub struct Faulty {
    pub reason: Reason,
    pub end: usize,
}

// 12, 10, 11, in this order.
pub fn bytes_fault(d: Delivery<'_>, start: usize, end: usize, piece: bool) -> Result<(), Reason>
    ensures { fault_number result ≡ bytes_fault d.entry.syntax (segment_in start end piece d.entry.bytes.now) }
{
    if piece {
        return Err(Reason::Unterminated);
    }
    if !allowed(d.bytes, start, end) {
        return Err(Reason::ByteNotAllowed);
    }
    if !tagged(d, start, end) {
        return Err(Reason::NoTag);
    }
    Ok(())
}

// The segment at `start` cut first, then its bytes tested, then its components.
fn read_through(
    edition: Edition,
    node: usize,
    d: Delivery<'_>,
    start: usize,
) -> Result<Reading, Faulty>
    ensures { numbers_of result ≡ reading_of d.entry.syntax edition node d.entry.bytes.now start }
{
    let Some(cut) = cut_at(d, start) else {
        return Err(Faulty {
            reason: Reason::Unterminated,
            end: start,
        });
    };
    let end = cut.end;
    if let Err(reason) = bytes_fault(d, start, end, cut.piece) {
        return Err(Faulty { reason, end });
    }
    match examined(edition, node, d, start, end) {
        Ok(places) => Ok(Reading {
            first: places.first,
            third: places.third,
            end,
        }),
        Err(reason) => Err(Faulty { reason, end }),
    }
}

// What is read of the segment at `start`, against the page of a node of an edition: in one pass, where it is told so that there is no fault.
pub fn read(edition: Edition, node: usize, d: Delivery<'_>, start: usize) -> Result<Reading, Faulty>
    ensures { numbers_of result ≡ reading_of d.entry.syntax edition node d.entry.bytes.now start }
{
    match faultless_from(d, start, first_cell(edition, node)) {
        Some(reading) => Ok(reading),
        None => read_through(edition, node, d, start),
    }
}
