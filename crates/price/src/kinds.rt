// What the first three bytes of a segment say of prices.
ghost use Rattle.std.specs.Prelude.{◌≡◌};
ghost use Rattle.price.specs.Listing.{kind_of};

use bytewise::begins_with;

#[derive(Clone, Copy, PartialEq, Eq, Debug)]
pub enum Kind {
    Lin,
    Pri,
    Rng,
    Other,
}

pub(crate) fn kind_of(segment: &[u8]) -> Kind
    ensures { result ≡ kind_of segment.now }
{
    if begins_with(segment, b"LIN") {
        Kind::Lin
    } else if begins_with(segment, b"PRI") {
        Kind::Pri
    } else if begins_with(segment, b"RNG") {
        Kind::Rng
    } else {
        Kind::Other
    }
}
