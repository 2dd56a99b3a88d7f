// The end of a message whose segments have no fault: 24, then 23, or accepted.
ghost use Rattle.std.specs.Prelude.{suc, ◌<◌, ◌^◌, false, ◌≡◌};
ghost use Rattle.verdict.specs.workers.Ends.{NoneAgrees, EndedAs};

use crate::answers::{Accepted, Refused, Verdict};
use crate::message::Walked;
use agree::first_agreeing;
use cut::Delivery;
use guide::{Edition, Reason};
use judge::has_tag;

// The verdict of a message whose segments have no fault; or 23, of which a second walk names segment and node: the place of the first position that agrees
// with an earlier one.
#[derive(Clone, Copy)]
pub enum Conclusion {
    Told(Verdict),
    Agrees { place: usize },
}

// The verdict of a message whose segments all fit: 24, 23 or accepted. Without a doubt no position agrees with an earlier one.
pub(crate) fn ended(edition: Edition, d: Delivery<'_>, start: usize, walked: Walked) -> Conclusion
    requires n_bound { suc walked.segments < 2 ^ 64 }
    requires none_agrees { walked.kept.doubt ≡ false → NoneAgrees d.syntax d.bytes.now start walked.end }
    ensures { EndedAs edition d.entry.syntax d.entry.bytes.now start walked.kept walked.segments walked.end result }
{
    let kept = walked.kept;
    let end = walked.end;
    if !has_tag(edition, kept.last, b"UNT") {
        return Conclusion::Told(Err(Refused {
            reason: Reason::NoEnd,
            segment: walked.segments + 1,
            place: end,
            node: 0,
        }));
    }
    let accepted = Conclusion::Told(Ok(Accepted {
        segments: walked.segments,
        end,
    }));
    if kept.intervals || !kept.doubt {
        return accepted;
    }
    match first_agreeing(d, start, end) {
        Some(agreeing) => Conclusion::Agrees {
            place: agreeing.place,
        },
        None => accepted,
    }
}
