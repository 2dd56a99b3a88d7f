// What is compared of a position, by its places in the delivery: its LIN, and its PIA and IMD if there are such.
ghost use Rattle.std.specs.Prelude.{[], ◌≡◌, MatchOption};
ghost use Rattle.bytewise.specs.Bytes.{part};
ghost use Rattle.agree.specs.Agreement.{agree, agree_in};
ghost use Rattle.agree.specs.Positions.{heading_from};
ghost use Rattle.cut.specs.Segments.{segments_at};
ghost use Rattle.sieve.specs.workers.Prints.{part_in};
ghost use Rattle.agree.specs.workers.Parts.{heading_in, Optional, EntryAt};

use crate::agreement::segments_agree;
use bytewise::begins_with;
use cut::{Cut, Delivery, past_breaks, segment_at};
use element::Span;

#[derive(Clone, Copy)]
pub(crate) struct Head {
    pub lin: Span,
    pub pia: Option<Span>,
    pub imd: Option<Span>,
}

// A segment, and the position that it begins if it is a LIN.
#[derive(Clone, Copy)]
pub(crate) struct Entry {
    pub segment: Cut,
    pub position: Option<Head>,
}

// The first segment from `at` on. Made part of its callers, so that the entry is not handed over in memory.
#[inline(always)]
pub(crate) fn entry_at(d: Delivery<'_>, at: usize) -> Option<Entry>
    ensures { MatchOption result (segments_at d.entry.syntax d.entry.bytes.now at ≡ []) (λ r. EntryAt d.entry.syntax d.entry.bytes.now at r) }
{
    let segment = segment_at(d, at)?;
    let lin = span_of(segment);
    let position = if begins_with(lin.part(d.bytes), b"LIN") {
        Some(head_at(d, lin))
    } else {
        None
    };
    Some(Entry { segment, position })
}

fn span_of(segment: Cut) -> Span
    ensures { result ≡ record { start = segment.start; end = segment.end } }
{
    Span {
        start: segment.start,
        end: segment.end,
    }
}

// The first segment from `at` on, if it has this tag. Only one that begins so is cut.
#[inline(always)]
fn optional_at(d: Delivery<'_>, at: usize, tag: &[u8]) -> Option<Span>
    ensures { Optional d.entry.syntax d.entry.bytes.now at tag.now result }
{
    let rest = Span {
        start: past_breaks(d, at),
        end: d.bytes.len(),
    };
    if !begins_with(rest.part(d.bytes), tag) {
        return None;
    }
    let found = span_of(segment_at(d, at)?);
    if begins_with(found.part(d.bytes), tag) {
        Some(found)
    } else {
        None
    }
}

// The position whose LIN this is.
#[inline(always)]
fn head_at(d: Delivery<'_>, lin: Span) -> Head
    ensures { heading_in result d.entry.bytes.now
        ≡ heading_from (part lin.start lin.end d.entry.bytes.now) (segments_at d.entry.syntax d.entry.bytes.now lin.end) }
{
    let pia = optional_at(d, lin.end, b"PIA");
    let behind = match pia {
        Some(s) => s.end,
        None => lin.end,
    };
    let imd = optional_at(d, behind, b"IMD");
    Head { lin, pia, imd }
}

// Whether two segments that may be missing are both missing, or both stand and agree.
#[tactic(auto, unfolding(crate::specs::Agreement::agree_in))]
fn optional_agree(d: Delivery<'_>, s: Option<Span>, t: Option<Span>) -> bool
    ensures { result ≡ agree_in d.entry.syntax (part_in s d.entry.bytes.now) (part_in t d.entry.bytes.now) }
{
    match (s, t) {
        (Some(s), Some(t)) => segments_agree(d, s, t, 0),
        (None, None) => true,
        _ => false,
    }
}

// Whether two positions agree.
#[tactic(auto, unfolding(crate::specs::Agreement::agree))]
pub(crate) fn heads_agree(d: Delivery<'_>, p: Head, q: Head) -> bool
    ensures { result ≡ agree d.entry.syntax (heading_in p d.entry.bytes.now) (heading_in q d.entry.bytes.now) }
{
    segments_agree(d, p.lin, q.lin, 1)
        && optional_agree(d, p.pia, q.pia)
        && optional_agree(d, p.imd, q.imd)
}
