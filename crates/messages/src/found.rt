// Messages, found by walking segments.
ghost use Rattle.std.specs.Prelude.{◌≡◌};
ghost use Rattle.cut.specs.Segments.{last_end, segments_at};
ghost use Rattle.messages.specs.Messages.{body, messages_in};
ghost use Rattle.messages.specs.Calls.{is_found, message_at, next_message};
ghost use Rattle.messages.specs.workers.Walks.{head_found};

use crate::ahead::next_u;
use crate::tags::{Spot, Tag, spot_at};
use cut::{Delivery, admission, begins_segment, first_from, opening};

// A message's first byte and the byte after its last.
#[derive(Clone, Copy, PartialEq, Eq, Debug)]
pub struct Message {
    pub start: usize,
    pub end: usize,
}

// The message that begins at `at`.
pub fn message_at(d: Delivery<'_>, at: usize) -> Option<Message>
    ensures { result ≡ message_at d.entry.syntax d.entry.bytes.now at }
{
    if !begins_segment(d, at) {
        return None;
    }
    let Spot { start, tag, end } = spot_at(d, at)?;
    if !tag.begins_message() {
        return None;
    }
    Some(Message {
        start,
        end: message_end(d, end),
    })
}

// Whether a message begins at `at`. The cost is its first segment, not the message.
pub fn message_begins(d: Delivery<'_>, at: usize) -> bool
    ensures { result ≡ is_found (message_at d.entry.syntax d.entry.bytes.now at) }
{
    if !begins_segment(d, at) {
        return false;
    }
    let Some(spot) = spot_at(d, at) else {
        return false;
    };
    spot.tag.begins_message()
}

// The next message that begins at `from` or later. The cost is what lies between `from` and the end of that message.
pub fn next_message(d: Delivery<'_>, from: usize) -> Option<Message>
    ensures { result ≡ next_message d.entry.syntax d.entry.bytes.now from }
{
    admission(d).ok()?;
    next_from(d, first_from(d, opening(d), from))
}

// The first message of the segments from `from` on.
fn next_from(d: Delivery<'_>, from: usize) -> Option<Message>
    ensures { result ≡ head_found (messages_in (segments_at d.entry.syntax d.entry.bytes.now from)) }
{
    let mut at = from;
    // From segment to segment: each says where the next turn begins.
    loop {
        let Spot { start, tag, end } = spot_at(d, at)?;
        if tag.begins_message() {
            return Some(Message {
                start,
                end: message_end(d, end),
            });
        }
        at = end;
    }
}

// Where the message ends whose first segment ends at `from`. Only segments that begin with U are cut.
pub fn message_end(d: Delivery<'_>, from: usize) -> usize
    ensures { result ≡ last_end from (body (segments_at d.entry.syntax d.entry.bytes.now from)) }
{
    let mut next = from;
    // From one segment with U to the next: each says where the next turn begins.
    loop {
        let at = next_u(d, next);
        let Some(Spot { tag, end, .. }) = spot_at(d, at) else {
            return at;
        };
        match tag {
            Tag::Other => next = end,
            Tag::Unt => return end,
            Tag::Unh | Tag::Unz => return at,
        }
    }
}
