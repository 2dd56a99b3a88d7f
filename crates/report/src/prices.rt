// The P lines of an accepted message.
ghost use Rattle.std.specs.Prelude.{◌*◌, ◌≤◌, ◌≡◌, length};

use crate::articles::put_article;
use crate::writing::{Missing, put_signed};
use cut::{Delivery, characters};
use schaumtruhe::{Reading, prices};
use std::io;

// P position article amount decimals, from the eight numbers of a price.
fn price_line(rt: &impl Print, message: Delivery<'_>, price: &[i64]) -> io::Result<()>
    requires { length price.now ≡ 8 }
{
    rt.write_all(b"P")?;
    put_signed(rt, price[0])?;
    put_article(rt, message, price[1], price[2])?;
    put_signed(rt, price[3])?;
    put_signed(rt, price[4])?;
    rt.write_all(b"\n")
}

// One line for each of the prices that were written: eight numbers each, and nothing behind them.
fn row_lines(rt: &impl Print, message: Delivery<'_>, row: &[i64], written: usize) -> io::Result<()>
    requires { length row.now ≡ written * 8 }
{
    for price in row.chunks_exact(8).take(written) {
        price_line(rt, message, price)?;
    }
    Ok(())
}

// The price from which to go on, if any of `total` is left where `written` from the k-th on have come.
fn left_of(k: usize, written: usize, total: usize) -> Result<Option<usize>, Missing> {
    if total.saturating_sub(k) <= written {
        return Ok(None);
    }
    if written == 0 {
        return Err(Missing::NoPrices);
    }
    Ok(Some(k + written))
}

// The lines of the prices of the message from start to end, from the k-th on, as many as a row takes; and the price from which to go on.
fn some_lines(
    rt: &impl Print,
    how: Reading,
    d: &[u8],
    start: usize,
    end: usize,
    k: usize,
) -> Result<Option<usize>, Missing>
    requires { (start ≤ end) × (end ≤ length d.now) }
{
    let message = Delivery {
        syntax: characters(how.syntax, d),
        bytes: &d[start..end],
    };
    let mut row = [0i64; 512];
    let filled = prices(how, d, start, k, &mut row)?;
    let written = filled.written;
    row_lines(rt, message, &row[..written * 8], written)?;
    left_of(k, written, filled.total)
}

// The prices of the message from start to end. Each turn writes one line or more, and a price takes more than one byte, so that there are
// turns enough.
pub(crate) fn price_lines(
    rt: &impl Print,
    how: Reading,
    d: &[u8],
    start: usize,
    end: usize,
) -> Result<(), Missing>
    requires { (start ≤ end) × (end ≤ length d.now) }
{
    let mut k = 0;
    for _ in 0..d.len() {
        match some_lines(rt, how, d, start, end, k)? {
            Some(price) => k = price,
            None => return Ok(()),
        }
    }
    Err(Missing::NoPrices)
}
