// The verdict of a message: one pass over its segments, which finds its end too. Its positions are gone over again only where an article may have come
// twice.
ghost use Rattle.std.specs.Prelude.{◌≤◌, ◌≡◌, length};
ghost use Rattle.messages.specs.Held.{unless};
ghost use Rattle.cut.specs.Segments.{last_end, segments_at};
ghost use Rattle.messages.specs.Messages.{body};
ghost use Rattle.guide.specs.Nodes.{number_of};
ghost use Rattle.guide.specs.Answers.{refuses};
ghost use Rattle.guide.specs.Editions.{guide_of};
ghost use Rattle.guide.specs.Reasons.{number_of_reason};
ghost use Rattle.verdict.specs.Answers.{judged_as};
ghost use Rattle.verdict.specs.Named.{held_at};
ghost use Rattle.verdict.specs.Verdicts.{verdict_named};
ghost use Rattle.verdict.specs.workers.Ends.{closed_by, told_by, Closable, judged_at, until_at};

use crate::answers::{Judged, Refused};
use crate::edition::edition_at;
use crate::ended::{Conclusion, ended};
use crate::kept::{Kept, begun, keep};
use crate::segment::segment_answer;
use cut::Delivery;
use guide::{Edition, Reason};
use judge::number_of;
use messages::{head_at, message_end};

// A message whose segments all fit: what is kept of them, how many there are, and where they end.
#[derive(Clone, Copy)]
pub struct Walked {
    pub kept: Kept,
    pub segments: usize,
    pub end: usize,
}

// The answer where a segment is refused: the node of its row is named by its number in the guide.
fn refused(
    edition: Edition,
    reason: Reason,
    segment: usize,
    place: usize,
    row: usize,
    end: usize,
) -> Judged
    ensures { judged_as result ≡ (refuses (number_of_reason reason) segment place (number_of (guide_of edition) row), end) }
{
    let refused = Refused {
        reason,
        segment,
        place,
        node: number_of(edition, row),
    };
    Judged {
        verdict: Err(refused),
        end,
    }
}

// Where the message ends of which a segment ends at `end`; `last`: that is its UNT.
fn close_of(d: Delivery<'_>, end: usize, last: bool) -> usize
    ensures { result ≡ last_end end (unless last (body (segments_at d.entry.syntax d.entry.bytes.now end))) }
{
    if last {
        return end;
    }
    message_end(d, end)
}

// The segments of the message that the first one from `start` on begins, one after the other; at one that begins at `stop` and has no fault it ends with
// 23. It returns before positions are compared: that takes a table of its own, and the compiler lays it over `came`.
fn walk(edition: Edition, d: Delivery<'_>, start: usize, stop: usize) -> Result<Walked, Judged>
    ensures result_value { length d.entry.bytes.now ≤ stop → closed_by edition d.entry.syntax d.entry.bytes.now start result
        ≡ judged_at edition d.entry.syntax d.entry.bytes.now start }
    ensures closable { Closable edition d.entry.syntax d.entry.bytes.now start result }
    ensures result_value_2 { told_by edition result ≡ until_at edition d.entry.syntax d.entry.bytes.now start stop }
{
    let mut counts = [0u32; 96];
    let mut came = [0u64; 256];
    let mut kept = begun(start);
    let mut end = start;
    let mut segments = 0;
    while let Some(head) = head_at(d, end, segments == 0) {
        let i = segments + 1;
        match segment_answer(edition, d, head.place, i, kept, &mut counts) {
            Ok(found) => {
                end = found.end;
                if head.place == stop {
                    return Err(refused(edition, Reason::Repeated, i, stop, found.node, end));
                }
                kept = keep(d, found, kept, &mut came);
            }
            Err(blamed) => {
                end = close_of(d, blamed.end, head.last);
                return Err(refused(edition, blamed.reason, i, head.place, blamed.node, end));
            }
        }
        segments = i;
        if head.last {
            break;
        }
    }
    Ok(Walked {
        kept,
        segments,
        end,
    })
}

// The verdict and the end of the message that the first segment from `start` on begins, by the guide of an edition. No segment begins at the end of `d`, so the
// first walk goes through. Where a position agrees with an earlier one, a second walk up to it names its node, and the message closes where the first one came
// to. Both are one call, and `place` has no other, so that the compiler makes it part of the walk.
fn judged_by(edition: Edition, d: Delivery<'_>, start: usize) -> Judged
    ensures { judged_as result ≡ judged_at edition d.entry.syntax d.entry.bytes.now start }
{
    let mut stop = d.bytes.len();
    let mut close = None;
    // Once, or twice where positions agree.
    loop {
        match walk(edition, d, start, stop) {
            Err(told) => {
                return Judged {
                    verdict: told.verdict,
                    end: close.unwrap_or(told.end),
                };
            }
            Ok(walked) => match ended(edition, d, start, walked) {
                Conclusion::Told(verdict) => {
                    return Judged {
                        verdict,
                        end: walked.end,
                    };
                }
                Conclusion::Agrees { place } => {
                    stop = place;
                    close = Some(walked.end);
                }
            },
        }
    }
}

// The verdict and the end of the message that the first segment from `start` on begins, by the guide named in UNH.
pub fn judged(d: Delivery<'_>, start: usize) -> Judged
    ensures { judged_as result
        ≡ (
          verdict_named d.entry.syntax start (held_at d.entry.syntax d.entry.bytes.now start),
          last_end start
              (held_at d.entry.syntax d.entry.bytes.now start),
        ) }
{
    judged_by(edition_at(d, start), d, start)
}
