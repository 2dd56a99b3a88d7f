// The lines of a delivery: for each message its M line and its P lines, last the E line.
ghost use Rattle.std.specs.Prelude.{◌≤◌, length};

use crate::prices::price_lines;
use crate::writing::{Missing, put_line};
use cut::Inadmissible;
use schaumtruhe::{Reading, Unaccepted, judge_at, next_message, survey};
use std::io;
use verdict::Accepted;

// M number start verdict segment place node; an accepted message has verdict 0, its count of segments, the byte after it, 0.
fn message_line(
    rt: &impl Print,
    number: usize,
    start: usize,
    v: Result<Accepted, Unaccepted>,
) -> io::Result<()> {
    let ns = match v {
        Ok(a) => [number, start, 0, a.segments, a.end, 0],
        Err(Unaccepted::Call(refusal)) => [number, start, u32::from(refusal) as usize, 0, 0, 0],
        Err(Unaccepted::Message(r)) => {
            let reason = u32::from(r.reason) as usize;
            [number, start, reason, r.segment, r.place, r.node]
        }
    };
    put_line(rt, b"M", &ns)
}

// All M and P lines of an admitted delivery.
fn message_lines(rt: &impl Print, how: Reading, d: &[u8]) -> Result<(), Missing> {
    let mut from = 0;
    let mut number = 0;
    while let Some(m) = next_message(how.syntax, d, from) {
        number += 1;
        let v = judge_at(how, d, m.start);
        message_line(rt, number, m.start, v)?;
        if v.is_ok() {
            price_lines(rt, how, d, m.start, m.end)?;
        }
        from = m.end;
    }
    Ok(())
}

// X and the number of a delivery that is refused as a whole.
pub(crate) fn refusal_line(rt: &impl Print, reason: Inadmissible) -> io::Result<()> {
    put_line(rt, b"X", &[u32::from(reason) as usize])
}

// All lines; last E messages accepted outside.
pub(crate) fn delivery_lines(rt: &impl Print, how: Reading, d: &[u8]) -> Result<(), Missing> {
    match survey(how, d) {
        Ok(s) => {
            message_lines(rt, how, d)?;
            put_line(rt, b"E", &[s.messages, s.accepted, s.outside])?;
        }
        Err(reason) => refusal_line(rt, reason)?,
    }
    Ok(())
}
