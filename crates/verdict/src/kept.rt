// What is kept of a message's segments from one to the next, beside the counts of placing.
ghost use Rattle.std.specs.Prelude.{suc, ◌<◌, ◌^◌, ◌≡◌, true, false, ◌||◌};
ghost use Rattle.bytewise.specs.Bytes.{bytes_of};
ghost use Rattle.plain.specs.Plain.{same};
ghost use Rattle.verdict.specs.workers.Kept.{kept_first, kept_after, Undoubted, UndoubtedBy};
ghost use Rattle.verdict.specs.workers.Segments.{spanned};

use crate::roles::Role;
use crate::segment::Found;
use cut::Delivery;
use element::Span;
use plain::is_code;
use sieve::note_article;

// The last node, how many positions there were, where the reference in UNH stands, whether BGM has the code Z04, and whether there is a doubt that no
// two positions agree: an article may have come twice.
#[derive(Clone, Copy)]
pub struct Kept {
    pub last: usize,
    pub positions: usize,
    pub reference: Span,
    pub intervals: bool,
    pub doubt: bool,
}

// Before the first segment of the message that begins at `start`.
pub(crate) fn begun(start: usize) -> Kept
    ensures { result ≡ kept_first start }
{
    Kept {
        last: 0,
        positions: 0,
        reference: Span { start, end: start },
        intervals: false,
        doubt: false,
    }
}

// Whether the message is one for intervals, once the code of its BGM, the component `first`, is known.
fn intervals_after(d: Delivery<'_>, first: Span, intervals: bool) -> bool
    ensures { result ≡ intervals || same (spanned d.entry.syntax first d.entry.bytes.now) (bytes_of "Z04") }
{
    intervals || is_code(d, first.start, first.end, b"Z04")
}

// Whether there is a doubt after a LIN with the article `third`, which is noted in the table of those that came. Where positions are not compared, or
// there is a doubt already, no article is looked at: the answer is that of `agree` then, or is not asked for.
fn doubt_after(d: Delivery<'_>, third: Span, kept: Kept, came: &mut [u64; 256]) -> bool
    ensures { result ≡ false → Undoubted true kept.doubt came.old came.new (spanned d.entry.syntax third d.entry.bytes.now) }
{
    if kept.intervals || kept.doubt {
        return true;
    }
    note_article(d, third.start, third.end, came)
}

// What is kept after a segment that is placed; `came` is the table of the articles that came.
pub(crate) fn keep(d: Delivery<'_>, found: Found, kept: Kept, came: &mut [u64; 256]) -> Kept
    requires { suc kept.positions < 2 ^ 64 }
    ensures value { result ≡ kept_after d.entry.syntax d.entry.bytes.now found kept result.doubt }
    ensures undoubted_by { result.doubt ≡ false → UndoubtedBy d.entry.syntax d.entry.bytes.now found kept came.old came.new }
{
    let last = found.node;
    match found.role {
        Role::Lin => Kept {
            last,
            positions: kept.positions + 1,
            doubt: doubt_after(d, found.third, kept, came),
            ..kept
        },
        Role::Bgm => Kept {
            last,
            intervals: intervals_after(d, found.first, kept.intervals),
            ..kept
        },
        Role::Unh => Kept {
            last,
            reference: found.first,
            ..kept
        },
        Role::Unt | Role::Other => Kept { last, ..kept },
    }
}
