// Whether a delivery is read at all, and where its segments are looked for from.
ghost use Rattle.std.specs.Prelude.{◌≡◌};
ghost use Rattle.cut.specs.Admission.{admission_of, admission_number, number_of, opening_of};

use crate::breaks::past_breaks;
use crate::service::Delivery;
use crate::serving::may_be_used;
use bytewise::begins_with;

// The most bytes that a delivery has.
const LIMIT: usize = 1_048_576;

// Why a delivery is not read at all.
#[derive(Clone, Copy, PartialEq, Eq, Debug)]
pub enum Inadmissible {
    // It is longer than the limit.
    TooLong,
    // These service characters may not be used, or the delivery begins UNA, line breaks aside, and its nine bytes are not theirs.
    Characters,
}

// The refusal's number in document 01.
impl From<Inadmissible> for u32 {
    ghost from_gives = { λ refusal number. number ≡ number_of refusal };

    fn from(refusal: Inadmissible) -> u32 {
        match refusal {
            Inadmissible::TooLong => 1,
            Inadmissible::Characters => 2,
        }
    }
}

// Whether a delivery is read.
pub fn admission(d: Delivery<'_>) -> Result<(), Inadmissible>
    ensures { admission_number result ≡ admission_of d.entry.syntax d.entry.bytes.now }
{
    if d.bytes.len() > LIMIT {
        return Err(Inadmissible::TooLong);
    }
    if !may_be_used(d.syntax) {
        return Err(Inadmissible::Characters);
    }
    let k = past_breaks(d, 0);
    let rest = &d.bytes[k..];
    if !begins_with(rest, b"UNA") {
        return Ok(());
    }
    let una = [
        b'U',
        b'N',
        b'A',
        d.syntax.component,
        d.syntax.element,
        d.syntax.decimal,
        d.syntax.release,
        b' ',
        d.syntax.terminator,
    ];
    if begins_with(rest, &una) {
        Ok(())
    } else {
        Err(Inadmissible::Characters)
    }
}

// Where the segments of an admitted delivery are looked for from: behind the line breaks at its start, and behind UNA's nine bytes.
pub fn opening(d: Delivery<'_>) -> usize
    ensures { result ≡ opening_of d.entry.syntax d.entry.bytes.now }
{
    let k = past_breaks(d, 0);
    let una = &d.bytes[k..];
    if begins_with(una, b"UNA") { k + 9 } else { k }
}
