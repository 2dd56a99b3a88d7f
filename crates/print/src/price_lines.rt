// The lines of prices. An article may be longer than the buffer: it is printed in pieces.
ghost use Rattle.std.specs.Prelude.{◌≤◌, true, ◌≡◌, length};
ghost use Rattle.print.specs.Printing.{left_among, left_within, sound, least, Wrote};
ghost use Rattle.print.specs.workers.Rows.{put_at, opened};

use crate::message_lines::between;
use crate::rows::{put_behind, put_line, put_plain};
use crate::state::{Chunk, Counts, Rest, Stage};
use cut::Delivery;
use price::{Cursor, next_price};

// P, the position, and `-` for an article that is absent.
fn opening(position: usize, from: usize, to: usize, out: &mut [u8]) -> usize
    requires { least ≤ length out.old }
    ensures value { (result ≡ length (opened position from to)) × (result ≤ 24) }
    ensures out_after { out.new ≡ put_at 0 (opened position from to) out.old }
{
    let ns = [position];
    let n = put_line(b'P', &ns, b' ', out);
    if from < to {
        return n;
    }
    out[n] = b'-';
    n + 1
}

// The next price from the cursor on, up to its article; behind the last one, what comes behind the message.
pub(crate) fn among(d: Delivery<'_>, c: Counts, cursor: Cursor, out: &mut [u8]) -> Chunk
    requires { (least ≤ length out.old) × (sound c ≡ true) }
    ensures { Wrote d.entry.bytes.now (left_among d.entry.syntax d.entry.bytes.now c cursor) out.old out.new result }
{
    let Some((p, next)) = next_price(d, c.at, cursor) else {
        return between(d, c, out);
    };
    let n = opening(p.position, p.start, p.end, out);
    let rest = Rest {
        from: p.start,
        to: p.end,
        amount: p.amount,
        decimals: p.decimals,
    };
    Chunk::new(n, d.syntax, c, Stage::Article { cursor: next, rest })
}

// The rest of an article, as much as the buffer takes; where that is all, the rest of its line too.
pub(crate) fn within(
    d: Delivery<'_>,
    c: Counts,
    cursor: Cursor,
    rest: Rest,
    out: &mut [u8],
) -> Chunk
    requires { (least ≤ length out.old) × (sound c ≡ true) }
    ensures { Wrote d.entry.bytes.now (left_within d.entry.syntax d.entry.bytes.now c cursor rest) out.old out.new result }
{
    let copied = put_plain(d, rest.from, rest.to, out);
    match copied.left {
        None => {
            let n = put_behind(rest.amount, rest.decimals, out, copied.length);
            Chunk::new(n, d.syntax, c, Stage::Prices { cursor })
        }
        Some(from) => {
            let rest = Rest { from, ..rest };
            Chunk::new(copied.length, d.syntax, c, Stage::Article { cursor, rest })
        }
    }
}
