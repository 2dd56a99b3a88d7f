// Prices into a lent row, in one walk over the message's segments.
ghost use Rattle.std.specs.Prelude.{◌≤◌, ◌≡◌, length, IfSome};
ghost use Rattle.price.specs.Numbers.{numbers_of};
ghost use Rattle.price.specs.Listing.{prices_of};
ghost use Rattle.price.specs.Calls.{prices_in, filled_of, row_after};
ghost use Rattle.cut.specs.Segments.{segments_at};
ghost use Rattle.price.specs.workers.Parts.{listed_in, put_found, Within};

use crate::kinds::Kind;
use crate::numbers::numbers_at;
use crate::rows::put_row;
use crate::spots::{Held, Spot, spot_at};
use cut::Delivery;

// How many prices were written, and how many the message has.
#[derive(Clone, Copy, PartialEq, Eq, Debug)]
pub struct Filled {
    pub written: usize,
    pub total: usize,
}

// The prices of the message from `start` to `end`, from the k-th on: eight numbers to a price, as many as fit whole.
pub fn fill(d: Delivery<'_>, start: usize, end: usize, k: usize, row: &mut [i64]) -> Filled
    ensures value { result ≡ filled_of d.entry.syntax start k (prices_in d.entry.syntax d.entry.bytes.now start end) row.old }
    ensures row_after { row.new ≡ row_after d.entry.syntax start k (prices_in d.entry.syntax d.entry.bytes.now start end) row.old }
{
    let end = end.min(d.bytes.len());
    let message = Delivery {
        bytes: &d.bytes[start.min(end)..end],
        ..d
    };
    fill_message(message, k, row)
}

// The same of a message by itself: a price's places count from its start.
fn fill_message(d: Delivery<'_>, k: usize, row: &mut [i64]) -> Filled
    ensures value { result ≡ filled_of d.entry.syntax 0 k (prices_of 0 (segments_at d.entry.syntax d.entry.bytes.now 0)) row.old }
    ensures row_after { row.new ≡ row_after d.entry.syntax 0 k (prices_of 0 (segments_at d.entry.syntax d.entry.bytes.now 0)) row.old }
{
    let mut seen: usize = 0;
    let mut p = Held::first(0);
    let mut here = spot_at(d, 0);
    while let Some(spot) = here {
        here = spot_at(d, spot.end);
        put_found(d, p, spot, here, k, seen, row);
        if spot.kind == Kind::Pri {
            seen += 1;
        }
        p = p.moved(spot);
    }
    Filled {
        written: seen.saturating_sub(k).min(row.len() / 8),
        total: seen,
    }
}

// Writes the price of the segment at a spot, if it is a PRI, one from the k-th on, and fits whole; `next` is the segment behind it.
fn put_found(
    d: Delivery<'_>,
    p: Held,
    spot: Spot,
    next: Option<Spot>,
    k: usize,
    seen: usize,
    row: &mut [i64],
)
    requires within { Within p d.bytes.now }
    requires spot_within { spot.start ≤ length d.bytes.now }
    requires next_within { IfSome next (λ s. s.start ≤ length d.bytes.now) }
    ensures { row.new ≡ put_found spot.kind k seen (numbers_of d.entry.syntax 0 (listed_in d.entry.bytes.now p spot.start spot.end next)) row.old }
{
    if spot.kind != Kind::Pri || seen < k {
        return;
    }
    let n = seen - k;
    if row.len() / 8 <= n {
        return;
    }
    put_row(row, n, numbers_at(d, p, spot, next));
}
