// The article of a price, as it is printed.
use cut::Delivery;
use plain::Literals;
use std::io;

// The bytes of a part, releases removed, one after the other, so that a part of any length is written whole.
fn put_plain(rt: &impl Print, part: Delivery<'_>) -> io::Result<()> {
    for x in Literals::of(part, 0, part.bytes.len()) {
        rt.write_all(&[x])?;
    }
    Ok(())
}

// A number of a row as a place or a length; 0 for one below.
fn whole(n: i64) -> usize {
    if n < 0 { 0 } else { n as usize }
}

// The n bytes of a message from a on, behind a blank; `-` for none, and for a part that does not lie within.
fn put_part(rt: &impl Print, message: Delivery<'_>, a: usize, n: usize) -> io::Result<()> {
    if n == 0 || message.bytes.len() < a || message.bytes.len() - a < n {
        return rt.write_all(b" -");
    }
    rt.write_all(b" ")?;
    let part = Delivery {
        bytes: &message.bytes[a..a + n],
        ..message
    };
    put_plain(rt, part)
}

// The article by its place in the message and its length, as a row has them: an absent one has length 0.
pub(crate) fn put_article(
    rt: &impl Print,
    message: Delivery<'_>,
    place: i64,
    length: i64,
) -> io::Result<()> {
    put_part(rt, message, whole(place), whole(length))
}
