// The prices of a message one after the other, by a cursor that is a value.
ghost use Rattle.std.specs.Prelude.{◌≤◌, ◌≡◌};
ghost use Rattle.bytewise.specs.Bytes.{part};
ghost use Rattle.cut.specs.Segments.{segments_at};
ghost use Rattle.price.specs.Cursors.{first_cursor, next_price, next_in, price_here};

use crate::kinds::Kind;
use crate::numbers::{amount_in, decimals_in};
use crate::spots::{Held, Spot, spot_at};
use cut::Delivery;
use element::component_at;
use value::number_of;

// Where the walk over a message's segments stands, and the position that it is in.
#[derive(Clone, Copy)]
pub struct Cursor {
    pub at: usize,
    pub held: Held,
}

// A price: its position, where its article stands, its amount and decimals.
#[derive(Clone, Copy, PartialEq, Eq, Debug)]
pub struct Price {
    pub position: usize,
    pub start: usize,
    pub end: usize,
    pub amount: i64,
    pub decimals: i64,
}

// Before the first price of the message that begins at a place.
pub fn first_price(start: usize) -> Cursor
    ensures { result ≡ first_cursor start }
{
    Cursor {
        at: start,
        held: Held::first(start),
    }
}

// The next price of a message that ends at `end`, with the cursor behind it. A cursor with more positions than bytes before it is none of a message:
// nothing comes.
pub fn next_price(d: Delivery<'_>, end: usize, c: Cursor) -> Option<(Price, Cursor)>
    ensures { result ≡ next_price d.entry.syntax (part 0 end d.entry.bytes.now) c }
{
    if c.at < c.held.number {
        return None;
    }
    next_from(d.until(end), c.at, c.held)
}

// The same for all segments from `from` on.
fn next_from(d: Delivery<'_>, from: usize, held: Held) -> Option<(Price, Cursor)>
    requires { held.number ≤ from }
    ensures { result ≡ next_in d.entry.syntax d.entry.bytes.now held (segments_at d.entry.syntax d.entry.bytes.now from) }
{
    let mut at = from;
    let mut p = held;
    while let Some(spot) = spot_at(d, at) {
        if spot.kind == Kind::Pri {
            return Some(price_here(d, p, spot));
        }
        p = p.moved(spot);
        at = spot.end;
    }
    None
}

// The price of the PRI that stands at a spot, in the position p.
fn price_here(d: Delivery<'_>, p: Held, spot: Spot) -> (Price, Cursor)
    ensures { result ≡ price_here d.entry.syntax d.entry.bytes.now p (part spot.start spot.end d.entry.bytes.now) spot.end }
{
    let a = component_at(d, p.lin.start, p.lin.end, 3, 0);
    let s = component_at(d, spot.start, spot.end, 1, 1);
    let n = number_of(d, s.start, s.end);
    let price = Price {
        position: p.number,
        start: a.start,
        end: a.end,
        amount: amount_in(n),
        decimals: decimals_in(n),
    };
    (
        price,
        Cursor {
            at: spot.end,
            held: p,
        },
    )
}
