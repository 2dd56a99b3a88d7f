// The accepted message that begins at a place: what prices and articles are asked of.
ghost use Rattle.std.specs.Prelude.{◌≡◌};
ghost use Rattle.schaumtruhe.specs.Refusals.{number_of, numbered};
ghost use Rattle.schaumtruhe.specs.Calls.{sheet_at};
ghost use Rattle.schaumtruhe.specs.workers.Answers.{standing_of};

use crate::judging::message_begins;
use crate::refusal::Refusal;
use cut::Delivery;
use verdict::judged;

// An accepted message's first byte and the byte after its last.
#[derive(Clone, Copy, PartialEq, Eq, Debug)]
pub(crate) struct Sheet {
    pub start: usize,
    pub end: usize,
}

// That message; or 1, 2, 31 or 30.
pub(crate) fn sheet_at(d: Delivery<'_>, at: usize) -> Result<Sheet, Refusal>
    ensures { numbered number_of result ≡ standing_of (sheet_at d.entry.syntax d.entry.bytes.now at) }
{
    message_begins(d, at)?;
    let j = judged(d, at);
    match j.verdict {
        Ok(_) => Ok(Sheet {
            start: at,
            end: j.end,
        }),
        Err(_) => Err(Refusal::Refused),
    }
}
