// The search run by run: a run's positions are marked in a table, and only what may agree with one of them is compared with them.
ghost use Rattle.std.specs.Prelude.{true, ◌≡◌, length, IfSome};
ghost use Rattle.cut.specs.Segments.{segments_at};
ghost use Rattle.agree.specs.Positions.{agrees_any};
ghost use Rattle.agree.specs.workers.Parts.{heading_in, headings_in};
ghost use Rattle.agree.specs.workers.Runs.{print_of, all_marked, meets, Running, Searched, PassedTo};

use crate::earlier::{agrees_earlier, any_position};
use crate::headings::{Head, entry_at};
use cut::Delivery;
use sieve::{is_marked, mark, print_of};

// How many segments it has, the place where they end, and whether a position stopped it that agrees with one of it. That decides only how the
// search goes on, so nothing is promised of it.
#[derive(Clone, Copy)]
pub(crate) struct Run {
    pub count: usize,
    pub end: usize,
    pub stopped: bool,
}

fn print_head(d: Delivery<'_>, h: Head) -> u32
    ensures { result ≡ print_of d.entry.syntax (heading_in h d.entry.bytes.now) }
{
    print_of(d, h.lin, h.pia, h.imd)
}

// Whether a position with this print agrees with one that begins within the first n segments from `at` on, which are marked.
#[tactic(auto, using(crate::proofs::Marked::unmarked))]
fn agrees_marked(d: Delivery<'_>, at: usize, n: usize, h: Head, f: u32, t: &[u8; 8192]) -> bool
    requires f_value { f ≡ print_of d.syntax (heading_in h d.bytes.now) }
    requires at_value { all_marked d.syntax t.now (headings_in n (segments_at d.syntax d.bytes.now at)) ≡ true }
    ensures { result ≡ agrees_any d.entry.syntax (heading_in h d.entry.bytes.now) (headings_in n (segments_at d.entry.syntax d.entry.bytes.now at)) }
{
    is_marked(t, f) && agrees_earlier(d, at, n, h)
}

// A run of segments from `at` on with at most so many positions, which do not agree with each other, and their marks.
fn run_from(d: Delivery<'_>, at: usize, most: usize, t: &mut [u8; 8192]) -> Run
    requires { length t.old ≡ 8192 }
    ensures { Running d.entry.syntax d.entry.bytes.now at t.new result }
{
    let mut run = Run {
        count: 0,
        end: at,
        stopped: false,
    };
    let mut room = most;
    // Room falls only where a position is marked, so no `for` counts it.
    while 0 < room {
        let Some(entry) = entry_at(d, run.end) else {
            return run;
        };
        if let Some(h) = entry.position {
            let f = print_head(d, h);
            if agrees_marked(d, at, run.count, h, f, t) {
                run.stopped = true;
                return run;
            }
            mark(t, f);
            room -= 1;
        }
        run.count += 1;
        run.end = entry.segment.end;
    }
    run
}

// Whether a position that begins within the first n segments from `start` on agrees with one of the first `count` segments from `at` on,
// which are marked.
fn meets_run(
    d: Delivery<'_>,
    start: usize,
    n: usize,
    at: usize,
    count: usize,
    t: &[u8; 8192],
) -> bool
    requires { all_marked d.syntax t.now (headings_in count (segments_at d.syntax d.bytes.now at)) ≡ true }
    ensures { result
        ≡ meets d.entry.syntax (headings_in n (segments_at d.entry.syntax d.entry.bytes.now start)) (headings_in count
        (segments_at d.entry.syntax d.entry.bytes.now at)) }
{
    any_position(d, start, n, |h| {
        agrees_marked(d, at, count, h, print_head(d, h), t)
    })
}

// A run of segments from `at` on with at most so many positions, which agree with none before them; none where that is not known.
pub(crate) fn fresh_run(
    d: Delivery<'_>,
    start: usize,
    at: usize,
    n: usize,
    most: usize,
) -> Option<Run>
    requires { Searched d.syntax d.bytes.now start at n }
    ensures { IfSome result (PassedTo d.entry.syntax d.entry.bytes.now start at n) }
{
    let mut t = [0u8; 8192];
    let run = run_from(d, at, most, &mut t);
    if run.count == 0 || meets_run(d, start, n, at, run.count, &t) {
        return None;
    }
    Some(run)
}
