// The verdict of the message that begins at a place.
ghost use Rattle.std.specs.Prelude.{◌≡◌};
ghost use Rattle.schaumtruhe.specs.Refusals.{refusal_number, told};
ghost use Rattle.schaumtruhe.specs.Calls.{verdict_at};
ghost use Rattle.schaumtruhe.specs.workers.Answers.{asked};

use crate::refusal::Refusal;
use crate::unaccepted::Unaccepted;
use cut::{Delivery, admission};
use verdict::{Accepted, judged};

// Whether a message begins there; or 1, 2 or 31.
pub(crate) fn message_begins(d: Delivery<'_>, at: usize) -> Result<(), Refusal>
    ensures { refusal_number result ≡ asked d.entry.syntax d.entry.bytes.now at }
{
    admission(d)?;
    if messages::message_begins(d, at) {
        Ok(())
    } else {
        Err(Refusal::NoMessage)
    }
}

// 1, 2 or 31; else the message's verdict.
pub(crate) fn verdict_at(d: Delivery<'_>, at: usize) -> Result<Accepted, Unaccepted>
    ensures { told result ≡ verdict_at d.entry.syntax d.entry.bytes.now at }
{
    message_begins(d, at)?;
    let accepted = judged(d, at).verdict?;
    Ok(accepted)
}
