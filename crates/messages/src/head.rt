// Going through one message segment by segment, without looking for its end first.
ghost use Rattle.std.specs.Prelude.{◌≡◌};
ghost use Rattle.cut.specs.Segments.{segments_at};
ghost use Rattle.messages.specs.Held.{head_in};

use crate::tags::tag_at;
use cut::{Delivery, past_breaks};

// A further segment of the message, by its first byte and whether it is the UNT.
#[derive(Clone, Copy, PartialEq, Eq, Debug)]
pub struct Head {
    pub place: usize,
    pub last: bool,
}

// The next segment of the message that is open at `at`, or that begins there (`first`). Its end is not looked for.
pub fn head_at(d: Delivery<'_>, at: usize, first: bool) -> Option<Head>
    ensures { result ≡ head_in first (segments_at d.entry.syntax d.entry.bytes.now at) }
{
    let place = past_breaks(d, at);
    if d.bytes.len() <= place {
        return None;
    }
    let tag = tag_at(d, place);
    if !tag.is_inside(first) {
        return None;
    }
    let last = tag.ends_message();
    Some(Head { place, last })
}
