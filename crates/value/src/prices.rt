// The number of a price: a signed amount and its decimals.
ghost use Rattle.std.specs.Prelude.{◌<◌, ◌^◌, ◌≡◌};
ghost use Rattle.plain.specs.Plain.{decoded};
ghost use Rattle.value.specs.Number.{signed, number_of};

use crate::numeral::numeral_of;
use cut::Delivery;

// 168.06 is 16806 and 2.
#[derive(Clone, Copy, PartialEq, Eq, Debug)]
pub struct Amount {
    pub amount: i64,
    pub decimals: u8,
}

// The amount is made last: no test is made on a signed number.
fn with_sign(minus: bool, value: u64) -> i64
    requires { value < 10 ^ 15 }
    ensures { result ≡ signed minus value }
{
    let amount = value as i64;
    if minus {
        return -amount;
    }
    amount
}

// The number that the part is, decoded; what is no number, or has more than fifteen digits, has no value here.
pub fn number_of(d: Delivery<'_>, a: usize, e: usize) -> Option<Amount>
    ensures { result ≡ number_of d.entry.syntax (decoded d.entry.syntax a e d.entry.bytes.now) }
{
    let n = numeral_of(d, a, e)?;
    let value = n.value?;
    Some(Amount {
        amount: with_sign(n.minus, value),
        decimals: n.decimals as u8,
    })
}
