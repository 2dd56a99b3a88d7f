// Where the article of a price stands.
ghost use Rattle.std.specs.Prelude.{◌≡◌};
ghost use Rattle.price.specs.Calls.{article_at};
ghost use Rattle.price.specs.Listing.{prices_of};
ghost use Rattle.cut.specs.Segments.{segments_at};
ghost use Rattle.price.specs.workers.Parts.{HeldAt};

use crate::kinds::Kind;
use crate::spots::{Held, spot_at};
use cut::Delivery;
use element::{Span, component_at};

// Where the article of the k-th price of the message from `start` to `end` stands; an absent one, and that of a price that is not there,
// is the empty part at `start`.
pub fn article_at(d: Delivery<'_>, start: usize, end: usize, k: usize) -> Span
    ensures { result ≡ article_at d.entry.syntax d.entry.bytes.now start end k }
{
    if d.bytes.len() < start {
        return Span {
            start: d.bytes.len(),
            end: d.bytes.len(),
        };
    }
    let lin = lin_from(d.until(end), start, k);
    let s = component_at(d, lin.start, lin.end, 3, 0);
    if s.start < s.end {
        return s;
    }
    Span { start, end: start }
}

// Where the LIN of the k-th price of the segments from `start` on stands; an empty part, if there is no such price.
fn lin_from(d: Delivery<'_>, start: usize, k: usize) -> Span
    ensures { HeldAt start d.entry.bytes.now k (prices_of start (segments_at d.entry.syntax d.entry.bytes.now start)) result }
{
    let mut at = start;
    let mut left = k;
    let mut p = Held::first(start);
    while let Some(spot) = spot_at(d, at) {
        if spot.kind == Kind::Pri {
            if left == 0 {
                return p.lin;
            }
            left -= 1;
        }
        p = p.moved(spot);
        at = spot.end;
    }
    Span { start, end: start }
}
