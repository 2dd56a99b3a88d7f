// The lines of messages, and the last two lines.
ghost use Rattle.std.specs.Prelude.{◌^◌, ◌≤◌, ◌<◌, true, [], ◌∷◌, ◌≡◌, length, Some};
ghost use Rattle.cut.specs.Segments.{segments_at};
ghost use Rattle.messages.specs.Held.{head_outer};
ghost use Rattle.messages.specs.declared.outer.Outer.TheVariants as outer;
ghost use Rattle.envelope.specs.Envelope.{enveloped, envelope_numbers};
ghost use Rattle.verdict.specs.Answers.{told, numbers_of};
ghost use Rattle.print.specs.Report.{line_of};
ghost use Rattle.print.specs.Printing.{last_lines, left_from, sound, least, Wrote};
ghost use Rattle.print.specs.workers.Rows.{put_at};
ghost use Rattle.print.specs.workers.Stages.{stage_after, counted_after};

use crate::rows::{put_line, put_line_at};
use crate::state::{Chunk, Counts, Stage};
use cut::{Delivery, past_breaks};
use envelope::Incomplete;
use messages::{Outer, outer_at};
use price::first_price;
use verdict::{Verdict, judged};

// X and the number of a delivery that is refused as a whole.
pub(crate) fn refused(d: Delivery<'_>, c: Counts, number: u32, out: &mut [u8]) -> Chunk
    requires { (least ≤ length out.old) × (sound c ≡ true) }
    ensures { Wrote d.entry.bytes.now (line_of 88 (number ∷ [])) out.old out.new result }
{
    let ns = [number as usize];
    let n = put_line(b'X', &ns, b'\n', out);
    Chunk::new(n, d.syntax, c, Stage::Ended)
}

// V number place, at the front of the row.
fn envelope_line(judged: Result<(), Incomplete>, out: &mut [u8]) -> usize
    requires { least ≤ length out.old }
    ensures value { (result ≡ length (line_of 86 (envelope_numbers (enveloped judged)))) × (result ≤ 44) }
    ensures out_after { out.new ≡ put_at 0 (line_of 86 (envelope_numbers (enveloped judged))) out.old }
{
    match judged {
        Ok(()) => {
            let ns = [0, 0];
            put_line(b'V', &ns, b'\n', out)
        }
        Err(e) => {
            let ns = [u32::from(e.reason) as usize, e.place];
            put_line(b'V', &ns, b'\n', out)
        }
    }
}

// That line, and E messages accepted outside.
fn last(d: Delivery<'_>, c: Counts, out: &mut [u8]) -> Chunk
    requires { (least ≤ length out.old) × (sound c ≡ true) }
    ensures { Wrote d.entry.bytes.now (last_lines d.entry.syntax d.entry.bytes.now c.messages c.accepted c.outside) out.old out.new result }
{
    let v = envelope_line(envelope::judged(d), out);
    let ns = [c.messages, c.accepted, c.outside];
    let n = put_line_at(b'E', &ns, b'\n', out, v);
    Chunk::new(n, d.syntax, c, Stage::Ended)
}

// M number start verdict segment place node; an accepted message has verdict 0, its count of segments, the byte after it, 0.
fn message_line(number: usize, start: usize, v: Verdict, out: &mut [u8]) -> usize
    requires { least ≤ length out.old }
    ensures value { (result ≡ length (line_of 77 (number ∷ start ∷ numbers_of (told v)))) × (result ≤ least) }
    ensures out_after { out.new ≡ put_at 0 (line_of 77 (number ∷ start ∷ numbers_of (told v))) out.old }
{
    match v {
        Ok(a) => {
            let ns = [number, start, 0, a.segments, a.end, 0];
            put_line(b'M', &ns, b'\n', out)
        }
        Err(r) => {
            let reason = u32::from(r.reason) as usize;
            let ns = [number, start, reason, r.segment, r.place, r.node];
            put_line(b'M', &ns, b'\n', out)
        }
    }
}

// An accepted message's prices come next.
fn stage_after(v: Verdict, start: usize) -> Stage
    ensures { result ≡ stage_after (told v) start }
{
    match v {
        Ok(_) => {
            let cursor = first_price(start);
            Stage::Prices { cursor }
        }
        Err(_) => Stage::Between,
    }
}

// The counts behind a message that ends at `end`.
fn counted_after(c: Counts, v: Verdict, end: usize) -> Counts
    requires { (c.messages < 2 ^ 63) × (c.accepted < 2 ^ 63) }
    ensures { result ≡ counted_after c (told v) end }
{
    Counts {
        at: end,
        messages: c.messages + 1,
        accepted: c.accepted + usize::from(v.is_ok()),
        ..c
    }
}

// The line of the message that begins where the counts stand; it is judged here and nowhere else.
fn message(d: Delivery<'_>, c: Counts, out: &mut [u8]) -> Chunk
    requires { (least ≤ length out.old) × (sound c ≡ true) × (head_outer (segments_at d.syntax d.bytes.now c.at) ≡ Some outer.Message) }
    ensures { Wrote d.entry.bytes.now (left_from d.entry.syntax d.entry.bytes.now c) out.old out.new result }
{
    let start = past_breaks(d, c.at);
    let j = judged(d, c.at);
    let v = j.verdict;
    let counts = counted_after(c, v, j.end);
    let n = message_line(counts.messages, start, v, out);
    Chunk::new(n, d.syntax, counts, stage_after(v, start))
}

// The next message from where the counts stand, past the segments outside; or the last lines.
pub(crate) fn between(d: Delivery<'_>, c: Counts, out: &mut [u8]) -> Chunk
    requires { (least ≤ length out.old) × (sound c ≡ true) }
    ensures { Wrote d.entry.bytes.now (left_from d.entry.syntax d.entry.bytes.now c) out.old out.new result }
{
    let mut at = c.at;
    let mut outside = c.outside;
    // From segment to segment: each says where the next turn begins.
    loop {
        let here = Counts { at, outside, ..c };
        match outer_at(d, at) {
            Some(Outer::Message) => return message(d, here, out),
            Some(Outer::Segment { end }) => {
                outside += 1;
                at = end;
            }
            None => return last(d, here, out),
        }
    }
}
