// The rows of refusals in their order: 1, 2, then 50 to 55.
ghost use Rattle.std.specs.Prelude.{◌≡◌};
ghost use Rattle.envelope.specs.declared.judging.Reason.TheVariants.{Delivery};
ghost use Rattle.envelope.specs.Envelope.{stands, envelope_of, reason_number, enveloped};
ghost use Rattle.envelope.specs.workers.Walk.{cut_in};
ghost use Rattle.envelope.specs.workers.Rows.{Opened, rows_of};

use crate::parts::{counts_messages, lacks_any, same_reference};
use crate::walking::{Walk, walked};
use bytewise::begins_with;
use cut::{Cut, Delivery, Inadmissible, admission, opening, segment_at};
use element::Span;

// What is wrong with an envelope.
#[derive(Clone, Copy, PartialEq, Eq, Debug)]
pub enum Reason {
    // The delivery is not read at all.
    Delivery(Inadmissible),
    // The first segment is none, a piece, or does not begin UNB.
    NoUnb,
    // Likewise the last and UNZ.
    NoUnz,
    // DE0020 of UNB and of UNZ differ.
    OtherReference,
    // DE0036 of UNZ is not the count of the messages.
    OtherCount,
    // Another segment stands outside.
    Stray,
    // A required component is missing.
    Lacking,
}

// The reason's number in item 8.
impl From<Reason> for u32 {
    ghost from_gives = { λ reason number. number ≡ reason_number reason };

    fn from(reason: Reason) -> u32 {
        match reason {
            Reason::Delivery(refusal) => u32::from(refusal),
            Reason::NoUnb => 50,
            Reason::NoUnz => 51,
            Reason::OtherReference => 52,
            Reason::OtherCount => 53,
            Reason::Stray => 54,
            Reason::Lacking => 55,
        }
    }
}

// The first of the rows that is broken, and its place.
#[derive(Clone, Copy, PartialEq, Eq, Debug)]
pub struct Incomplete {
    pub reason: Reason,
    pub place: usize,
}

impl From<Inadmissible> for Incomplete {
    ghost from_gives = { λ refusal row. row ≡ record { reason = Delivery refusal; place = 0 } };

    fn from(refusal: Inadmissible) -> Incomplete {
        Incomplete {
            reason: Reason::Delivery(refusal),
            place: 0,
        }
    }
}

// Whether the segment is whole and begins with the tag.
#[tactic(auto, unfolding(crate::specs::Envelope::stands))]
fn is_whole(d: &[u8], segment: Cut, tag: &[u8]) -> bool
    ensures { result ≡ stands tag.now (cut_in d.now segment) }
{
    let Cut { start, end, piece } = segment;
    !piece && begins_with(Span { start, end }.part(d), tag)
}

// 52 to 55, where UNB stands from start to end, and the walk ended at UNZ. 55 is UNB's alone: a UNZ that lacks its count gets 53, and
// one that lacks its reference gets 52 unless UNB lacks it too.
fn matched(d: Delivery<'_>, start: usize, end: usize, w: Walk) -> Result<(), Incomplete>
    ensures { enveloped result ≡ rows_of d.entry.syntax d.entry.bytes.now start end w }
{
    let unz = w.last;
    if !same_reference(d, start, end, unz.start, unz.end) {
        return Err(Incomplete {
            reason: Reason::OtherReference,
            place: unz.start,
        });
    }
    if !counts_messages(d, unz.start, unz.end, w.messages) {
        return Err(Incomplete {
            reason: Reason::OtherCount,
            place: unz.start,
        });
    }
    if let Some(place) = w.stray {
        return Err(Incomplete {
            reason: Reason::Stray,
            place,
        });
    }
    if lacks_any(d, start, end) {
        return Err(Incomplete {
            reason: Reason::Lacking,
            place: start,
        });
    }
    Ok(())
}

// 51 to 55, where UNB stands from start to end.
fn closed(d: Delivery<'_>, start: usize, end: usize) -> Result<(), Incomplete>
    requires { Opened d.syntax d.bytes.now start end }
    ensures { enveloped result ≡ envelope_of d.entry.syntax d.entry.bytes.now }
{
    let w = walked(d, start, end);
    if !is_whole(d.bytes, w.last, b"UNZ") {
        return Err(Incomplete {
            reason: Reason::NoUnz,
            place: w.last.start,
        });
    }
    matched(d, start, end, w)
}

// Whether the delivery is complete, and if not, why.
pub fn judged(d: Delivery<'_>) -> Result<(), Incomplete>
    ensures { enveloped result ≡ envelope_of d.entry.syntax d.entry.bytes.now }
{
    admission(d)?;
    let Some(first) = segment_at(d, opening(d)) else {
        return Err(Incomplete {
            reason: Reason::NoUnb,
            place: d.bytes.len(),
        });
    };
    if !is_whole(d.bytes, first, b"UNB") {
        return Err(Incomplete {
            reason: Reason::NoUnb,
            place: first.start,
        });
    }
    closed(d, first.start, first.end)
}
