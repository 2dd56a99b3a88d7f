// The whole delivery: messages found, accepted, and segments outside.
ghost use Rattle.std.specs.Prelude.{◌≡◌};
ghost use Rattle.cut.specs.Admission.{number_of as inadmissible_number};
ghost use Rattle.schaumtruhe.specs.Refusals.{numbered};
ghost use Rattle.schaumtruhe.specs.Calls.{survey_of};

use cut::{Delivery, Inadmissible, admission};
use messages::{Outer, outer_at};
use verdict::judged;

// Messages found, accepted, and segments outside.
#[derive(Clone, Copy, PartialEq, Eq, Debug)]
pub struct Survey {
    pub messages: usize,
    pub accepted: usize,
    pub outside: usize,
}

// One walk over the delivery, in which each message is judged once and its end is found on the way; or 1 or 2.
pub(crate) fn counted(d: Delivery<'_>) -> Result<Survey, Inadmissible>
    ensures { numbered inadmissible_number result ≡ survey_of d.entry.syntax d.entry.bytes.now }
{
    admission(d)?;
    let mut counts = Survey {
        messages: 0,
        accepted: 0,
        outside: 0,
    };
    let mut at = cut::opening(d);
    while let Some(outer) = outer_at(d, at) {
        match outer {
            Outer::Message => {
                let j = judged(d, at);
                counts.messages += 1;
                counts.accepted += usize::from(j.verdict.is_ok());
                at = j.end;
            }
            Outer::Segment { end } => {
                counts.outside += 1;
                at = end;
            }
        }
    }
    Ok(counts)
}
