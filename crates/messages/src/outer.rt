// Going through a delivery from message to message: what stands at a place that lies in no message.
ghost use Rattle.std.specs.Prelude.{◌≡◌, true};
ghost use Rattle.cut.specs.Segments.{segments_at};
ghost use Rattle.messages.specs.Held.{outer_by, head_outer};
ghost use Rattle.messages.specs.workers.Walks.{tag_at, is_unh};

use crate::tags::Tag;
use cut::{Cut, Delivery, past_breaks, segment_at};

// A message begins there; or a segment outside, which ends at `end`.
#[derive(Clone, Copy, PartialEq, Eq, Debug)]
pub enum Outer {
    Message,
    Segment { end: usize },
}

fn by_tag(tag: Tag, end: usize) -> Outer
    ensures { result ≡ outer_by tag end }
{
    if tag.begins_message() {
        Outer::Message
    } else {
        Outer::Segment { end }
    }
}

// Whether what is cut at `at` surely begins a message: where neither U nor N ends a segment, three bytes tell it, and nothing is cut.
fn begins_unh(d: Delivery<'_>, at: usize) -> bool
    ensures { result ≡ true → is_unh (tag_at d.entry.syntax d.entry.bytes.now at) ≡ true }
{
    if d.syntax.terminator == b'U' || d.syntax.terminator == b'N' || d.bytes.len() <= at {
        return false;
    }
    Tag::of(&d.bytes[at..]).begins_message()
}

// What stands from `at` on, where no message is open.
pub fn outer_at(d: Delivery<'_>, at: usize) -> Option<Outer>
    ensures { result ≡ head_outer (segments_at d.entry.syntax d.entry.bytes.now at) }
{
    if begins_unh(d, past_breaks(d, at)) {
        return Some(Outer::Message);
    }
    let Cut { start, end, .. } = segment_at(d, at)?;
    Some(by_tag(Tag::of(&d.bytes[start..end]), end))
}
