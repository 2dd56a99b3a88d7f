// What the first three bytes of a segment say.
ghost use Rattle.std.specs.Prelude.{◌≤◌, ◌≡◌, length};
ghost use Rattle.cut.specs.Segments.{segments_at};
ghost use Rattle.messages.specs.workers.Walks.{head_spot, tag_at};

use cut::{Cut, Delivery, cut_at, segment_at};

#[derive(Clone, Copy, PartialEq, Eq, Debug)]
pub enum Tag {
    Unh,
    Unt,
    Unz,
    Other,
}

impl Tag {
    ghost use Rattle.messages.specs.Messages.{tag_of};
    ghost use Rattle.messages.specs.Held.{is_unt, belongs};
    ghost use Rattle.messages.specs.workers.Walks.{is_unh};

    pub(crate) fn of(segment: &[u8]) -> Tag
        ensures { result ≡ tag_of segment.now }
    {
        match segment {
            [b'U', b'N', b'H', ..] => Tag::Unh,
            [b'U', b'N', b'T', ..] => Tag::Unt,
            [b'U', b'N', b'Z', ..] => Tag::Unz,
            _ => Tag::Other,
        }
    }

    pub(crate) fn begins_message(self) -> bool
        ensures { result ≡ is_unh self }
    {
        self == Tag::Unh
    }

    pub(crate) fn ends_message(self) -> bool
        ensures { result ≡ is_unt self }
    {
        self == Tag::Unt
    }

    // Whether a segment belongs to the message that is open before it; the first one does.
    pub(crate) fn is_inside(self, first: bool) -> bool
        ensures { result ≡ belongs first self }
    {
        match self {
            Tag::Unt | Tag::Other => true,
            Tag::Unh | Tag::Unz => first,
        }
    }
}

// A segment's first byte, its tag and the byte after its last.
#[derive(Clone, Copy, PartialEq, Eq, Debug)]
pub struct Spot {
    pub start: usize,
    pub tag: Tag,
    pub end: usize,
}

// The first segment from `at` on, by its tag.
pub(crate) fn spot_at(d: Delivery<'_>, at: usize) -> Option<Spot>
    ensures { result ≡ head_spot (segments_at d.entry.syntax d.entry.bytes.now at) }
{
    let Cut { start, end, .. } = segment_at(d, at)?;
    Some(Spot {
        start,
        tag: Tag::of(&d.bytes[start..end]),
        end,
    })
}

// The tag of what is cut at `at`. Where neither U nor N ends a segment, the first three bytes tell it, and nothing is cut.
pub(crate) fn tag_at(d: Delivery<'_>, at: usize) -> Tag
    requires { at ≤ length d.bytes.now }
    ensures { result ≡ tag_at d.entry.syntax d.entry.bytes.now at }
{
    if d.syntax.terminator == b'U' || d.syntax.terminator == b'N' {
        return cut_tag(d, at);
    }
    Tag::of(&d.bytes[at..])
}

fn cut_tag(d: Delivery<'_>, at: usize) -> Tag
    ensures { result ≡ tag_at d.entry.syntax d.entry.bytes.now at }
{
    match cut_at(d, at) {
        Some(found) => Tag::of(&d.bytes[found.start..found.end]),
        None => Tag::Other,
    }
}
