// Why a call is refused.
ghost use Rattle.std.specs.Prelude.{◌≡◌};
ghost use Rattle.schaumtruhe.specs.Refusals.{number_of};
ghost use Rattle.schaumtruhe.specs.declared.refusal.Refusal.TheVariants as refusal;

use cut::Inadmissible;

// For the whole delivery; no message begins at the place asked; prices or article asked of a refused message; article asked for a price number that
// the message does not have.
#[derive(Clone, Copy, PartialEq, Eq, Debug)]
pub enum Refusal {
    Delivery(Inadmissible),
    NoMessage,
    Refused,
    NoPrice,
}

// The refusal's number in document 01.
impl From<Refusal> for u32 {
    ghost from_gives = { λ refusal number. number ≡ number_of refusal };

    fn from(refusal: Refusal) -> u32 {
        match refusal {
            Refusal::Delivery(reason) => reason.into(),
            Refusal::NoMessage => 31,
            Refusal::Refused => 30,
            Refusal::NoPrice => 32,
        }
    }
}

impl From<Inadmissible> for Refusal {
    ghost from_gives = { λ reason r. r ≡ refusal.Delivery reason };

    fn from(reason: Inadmissible) -> Refusal {
        Refusal::Delivery(reason)
    }
}
