// One walk over the segments behind the first: how many messages, the last segment, and the first one outside between the two.
ghost use Rattle.std.specs.Prelude.{◌≤◌, ◌<◌, ◌≡◌, length};
ghost use Rattle.messages.specs.Messages.{tag_of};
ghost use Rattle.envelope.specs.workers.Walk.{cut_in, is_within, role_of, passed, Walked};

use bytewise::begins_with;
use cut::{Cut, Delivery, segment_at};

// What a segment is to the messages: the delivery's first, which counts as none of the others; one that begins a message, stands within one, or ends it;
// or one outside.
#[derive(Clone, Copy)]
pub(crate) enum Role {
    First,
    Begins,
    Within,
    Ends,
    Outside,
}

// What is kept of the segments passed: the messages begun, the place of the first segment outside between the first and the last passed, and the last
// passed with its role.
#[derive(Clone, Copy)]
pub(crate) struct Walk {
    pub messages: usize,
    pub stray: Option<usize>,
    pub last: Cut,
    pub role: Role,
}

// Whether a message is open behind a segment with this role.
fn is_within(role: Role) -> bool
    ensures { result ≡ is_within role }
{
    matches!(role, Role::Begins | Role::Within)
}

// The role of a segment behind one with the role `before`.
fn role_of(segment: &[u8], before: Role) -> Role
    ensures { result ≡ role_of (tag_of segment.now) (is_within before) }
{
    if begins_with(segment, b"UNH") {
        return Role::Begins;
    }
    if begins_with(segment, b"UNT") {
        return if is_within(before) {
            Role::Ends
        } else {
            Role::Outside
        };
    }
    if is_within(before) && !begins_with(segment, b"UNZ") {
        Role::Within
    } else {
        Role::Outside
    }
}

// One segment more: the last one before it is now neither the first nor the last.
fn pass(d: &[u8], w: Walk, segment: Cut) -> Walk
    requires { (segment.start ≤ segment.end) × (segment.end ≤ length d.now) × (w.messages < length d.now) }
    ensures { result ≡ passed w (cut_in d.now segment) }
{
    let role = role_of(&d[segment.start..segment.end], w.role);
    let messages = match role {
        Role::Begins => w.messages + 1,
        _ => w.messages,
    };
    let stray = match w.role {
        Role::Outside => w.stray.or(Some(w.last.start)),
        _ => w.stray,
    };
    Walk {
        messages,
        stray,
        last: segment,
        role,
    }
}

// All segments behind the first, which stands from start to end, is whole and begins no message.
pub(crate) fn walked(d: Delivery<'_>, start: usize, end: usize) -> Walk
    requires { (start < end) × (end ≤ length d.bytes.now) }
    ensures { Walked d.entry.syntax d.entry.bytes.now start end result }
{
    let mut w = Walk {
        messages: 0,
        stray: None,
        last: Cut {
            start,
            end,
            piece: false,
        },
        role: Role::First,
    };
    while let Some(segment) = segment_at(d, w.last.end) {
        w = pass(d.bytes, w, segment);
    }
    w
}
