// Why no message is accepted at the place asked.
ghost use Rattle.std.specs.Prelude.{◌≡◌};
ghost use Rattle.schaumtruhe.specs.declared.unaccepted.Unaccepted.TheVariants as unaccepted;

use crate::refusal::Refusal;
use verdict::Refused;

// The call is refused, and no message was judged; or the message is.
#[derive(Clone, Copy, PartialEq, Eq, Debug)]
pub enum Unaccepted {
    Call(Refusal),
    Message(Refused),
}

impl From<Refusal> for Unaccepted {
    ghost from_gives = { λ refusal u. u ≡ unaccepted.Call refusal };

    fn from(refusal: Refusal) -> Unaccepted {
        Unaccepted::Call(refusal)
    }
}

impl From<Refused> for Unaccepted {
    ghost from_gives = { λ refused u. u ≡ unaccepted.Message refused };

    fn from(refused: Refused) -> Unaccepted {
        Unaccepted::Message(refused)
    }
}
