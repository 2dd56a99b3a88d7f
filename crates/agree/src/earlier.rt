// Whether a position agrees with one of those before it, which are all compared.
ghost use Rattle.std.specs.Prelude.{◌≡◌, ℕ, Bool};
ghost use Rattle.std.specs.List.{list_any};
ghost use Rattle.cut.specs.Segments.{segments_at};
ghost use Rattle.agree.specs.Agreement.{Heading};
ghost use Rattle.agree.specs.Positions.{agrees_any};
ghost use Rattle.agree.specs.workers.Parts.{heading_in, headings_in};

use crate::headings::{Head, entry_at, heads_agree};
use cut::Delivery;

// Whether one of the positions that begin within the first n segments from `start` on passes the test.
pub(crate) fn any_position<F: Fn(Head) -> bool>(
    d: Delivery<'_>,
    start: usize,
    n: usize,
    test: F,
) -> bool
    ghost passes: { Heading → Bool }
    requires callable { F.IsAlwaysCallable test }
    requires tests { (h : _) (b : Bool) → F.post test h b → b ≡ passes (heading_in h d.bytes.now) }
    ensures { result ≡ list_any passes (headings_in n (segments_at d.entry.syntax d.entry.bytes.now start)) }
{
    let mut at = start;
    for _passed in 0..n {
        let Some(entry) = entry_at(d, at) else {
            return false;
        };
        match entry.position {
            Some(h) if test(h) => return true,
            _ => at = entry.segment.end,
        }
    }
    false
}

// Whether a position agrees with one that begins within the first n segments from `start` on.
pub(crate) fn agrees_earlier(d: Delivery<'_>, start: usize, n: usize, h: Head) -> bool
    ensures { result ≡ agrees_any d.entry.syntax (heading_in h d.entry.bytes.now) (headings_in n (segments_at d.entry.syntax d.entry.bytes.now start)) }
{
    let Delivery { syntax, bytes } = d;
    any_position(d, start, n, |q| {
        heads_agree(Delivery { syntax, bytes }, q, h)
    })
}
