// The eight numbers of a price.
ghost use Rattle.std.specs.Prelude.{◌^◌, ◌≤◌, ◌<◌, ◌≡◌, length, IfSome};
ghost use Rattle.bytewise.specs.Bytes.{part};
ghost use Rattle.element.specs.Components.{component_at};
ghost use Rattle.price.specs.Rows.{eight};
ghost use Rattle.price.specs.Numbers.{article_place, amount_of, decimals_of, unit_rank, place_of_first, numbers_of};
ghost use Rattle.price.specs.workers.Parts.{rng_in, listed_in, Within};

use crate::kinds::Kind;
use crate::spots::{Held, Spot};
use cut::Delivery;
use element::{Span, component_at};
use plain::is_code;
use value::{Amount, number_of};

// In document 01's order.
#[derive(Clone, Copy, PartialEq, Eq, Debug)]
pub struct Numbers {
    pub position: i64,
    pub article: i64,
    pub length: i64,
    pub amount: i64,
    pub decimals: i64,
    pub unit: i64,
    pub pri: i64,
    pub rng: i64,
}

impl From<Numbers> for [i64; 8] {
    ghost from_gives = { λ p r. r ≡ eight p };

    fn from(p: Numbers) -> [i64; 8] {
        [
            p.position, p.article, p.length, p.amount, p.decimals, p.unit, p.pri, p.rng,
        ]
    }
}

fn article_place(a: Span) -> i64
    requires { a.start < 2 ^ 63 }
    ensures { result ≡ article_place 0 a }
{
    if a.start < a.end {
        return a.start as i64;
    }
    -1
}

pub(crate) fn amount_in(price: Option<Amount>) -> i64
    ensures { result ≡ amount_of price }
{
    price.map_or(0, |p| p.amount)
}

pub(crate) fn decimals_in(price: Option<Amount>) -> i64
    ensures { result ≡ decimals_of price }
{
    price.map_or(0, |p| i64::from(p.decimals))
}

// The unit of the PRI from `start` to `end`, whose price is known: where that is the last component, nothing stands behind it.
fn unit_in(d: Delivery<'_>, start: usize, end: usize, price: Span) -> i64
    requires { (start ≤ length d.bytes.now) × (price ≡ component_at d.syntax d.bytes.now start end 1 1) }
    ensures { result ≡ unit_rank d.entry.syntax (part start end d.entry.bytes.now) }
{
    if end <= price.end + 1 {
        return 0;
    }
    let s = component_at(d, start, end, 1, 5);
    if is_code(d, s.start, s.end, b"ANN") {
        return 1;
    }
    0
}

// The place of the segment that comes behind PRI, if it is a RNG.
fn rng_place(d: &[u8], next: Option<Spot>) -> i64
    requires { IfSome next (λ s. s.start ≤ length d.now) }
    ensures { result ≡ place_of_first 0 (rng_in d.now next) }
{
    let Some(spot) = next else {
        return -1;
    };
    if spot.kind != Kind::Rng {
        return -1;
    }
    spot.start as i64
}

// The numbers of the price whose PRI stands at a spot, in the position p, before the segment `next`.
pub(crate) fn numbers_at(d: Delivery<'_>, p: Held, spot: Spot, next: Option<Spot>) -> Numbers
    requires within { Within p d.bytes.now }
    requires spot_within { spot.start ≤ length d.bytes.now }
    requires next_within { IfSome next (λ s. s.start ≤ length d.bytes.now) }
    ensures { result ≡ numbers_of d.entry.syntax 0 (listed_in d.entry.bytes.now p spot.start spot.end next) }
{
    let a = component_at(d, p.lin.start, p.lin.end, 3, 0);
    let s = component_at(d, spot.start, spot.end, 1, 1);
    let n = number_of(d, s.start, s.end);
    Numbers {
        position: p.number as i64,
        article: article_place(a),
        length: (a.end - a.start) as i64,
        amount: amount_in(n),
        decimals: decimals_in(n),
        unit: unit_in(d, spot.start, spot.end, s),
        pri: spot.start as i64,
        rng: rng_place(d.bytes, next),
    }
}
