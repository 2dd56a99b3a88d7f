// The first position that agrees with an earlier one: run by run, and where a run may hold it, segment by segment.
ghost use Rattle.std.specs.Prelude.{◌≡◌};
ghost use Rattle.bytewise.specs.Bytes.{part};
ghost use Rattle.cut.specs.Segments.{segments_at, segments_of};
ghost use Rattle.agree.specs.Positions.{positions_of, first_agreeing};
ghost use Rattle.agree.specs.workers.Runs.{Searched};

use crate::earlier::agrees_earlier;
use crate::headings::entry_at;
use crate::runs::fresh_run;
use cut::Delivery;

// A LIN: its number among the message's segments, from 1, and the place of its first byte.
#[derive(Clone, Copy, PartialEq, Eq, Debug)]
pub struct Agreeing {
    pub segment: usize,
    pub place: usize,
}

// The first position that agrees with an earlier one, if one does, among the segments of the part from `start` to `end`.
pub fn first_agreeing(d: Delivery<'_>, start: usize, end: usize) -> Option<Agreeing>
    ensures { result ≡ first_agreeing d.entry.syntax (positions_of (segments_of d.entry.syntax start (part start end d.entry.bytes.now))) }
{
    first_from(d.until(end), start)
}

// The same among all segments from `start` on. A run that does not pass is tried again shorter, so that the search begins right before the
// position that it finds; behind one that was stopped it begins at once. The marks of 1,024 positions fill at most three eighths of the table.
#[tactic(auto, using(crate::proofs::earlier::Search::search_first, crate::proofs::earlier::Search::search_end))]
fn first_from(d: Delivery<'_>, start: usize) -> Option<Agreeing>
    ensures { result ≡ first_agreeing d.entry.syntax (positions_of (segments_at d.entry.syntax d.entry.bytes.now start)) }
{
    let mut at = start;
    let mut n = 0;
    let mut most = 1024;
    // A turn goes on where its run ended, so no `for` counts it.
    while at < d.bytes.len() {
        match fresh_run(d, start, at, n, most) {
            Some(run) => {
                n += run.count;
                at = run.end;
                if run.stopped {
                    return search_from(d, start, at, n);
                }
            }
            None => {
                if most < 2 {
                    return search_from(d, start, at, n);
                }
                most /= 8;
            }
        }
    }
    None
}

// The same where it is not within the first `before` segments, which end at `passed`: every position is compared with all before it.
fn search_from(d: Delivery<'_>, start: usize, passed: usize, before: usize) -> Option<Agreeing>
    requires { Searched d.syntax d.bytes.now start passed before }
    ensures { result ≡ first_agreeing d.entry.syntax (positions_of (segments_at d.entry.syntax d.entry.bytes.now start)) }
{
    let mut at = passed;
    let mut n = before;
    while let Some(entry) = entry_at(d, at) {
        match entry.position {
            Some(h) if agrees_earlier(d, start, n, h) => {
                return Some(Agreeing {
                    segment: n + 1,
                    place: entry.segment.start,
                });
            }
            _ => {
                n += 1;
                at = entry.segment.end;
            }
        }
    }
    None
}
