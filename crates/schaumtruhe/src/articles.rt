// Where the article of a price stands.
ghost use Rattle.std.specs.Prelude.{◌≡◌, IfOk, Ok, length};
ghost use Rattle.price.specs.Calls.{prices_in};
ghost use Rattle.schaumtruhe.specs.Refusals.{refusal_number};
ghost use Rattle.schaumtruhe.specs.Calls.{sheet_at, article_refusal, article_at};
ghost use Rattle.schaumtruhe.specs.workers.Answers.{standing_of};

use crate::refusal::Refusal;
use crate::sheets::{Sheet, sheet_at};
use cut::Delivery;
use element::Span;
use price::fill;

// How many prices a message has.
fn total(d: Delivery<'_>, sheet: Sheet) -> usize
    ensures { result ≡ length (prices_in d.entry.syntax d.entry.bytes.now sheet.start sheet.end) }
{
    let mut none = [0i64; 1];
    fill(d, sheet.start, sheet.end, 0, &mut none).total
}

// The accepted message at a place, if it has a price k; or 1, 2, 31, 30, 32.
fn sheet_with_price(d: Delivery<'_>, at: usize, k: usize) -> Result<Sheet, Refusal>
    ensures refusal { refusal_number result ≡ article_refusal d.entry.syntax d.entry.bytes.now at k }
    ensures sheet { IfOk result (λ s. Ok s ≡ standing_of (sheet_at d.entry.syntax d.entry.bytes.now at)) }
{
    let sheet = sheet_at(d, at)?;
    if total(d, sheet) <= k {
        return Err(Refusal::NoPrice);
    }
    Ok(sheet)
}

pub(crate) fn article_refused(d: Delivery<'_>, at: usize, k: usize) -> Result<(), Refusal>
    ensures { refusal_number result ≡ article_refusal d.entry.syntax d.entry.bytes.now at k }
{
    sheet_with_price(d, at, k)?;
    Ok(())
}

// A refused call has the empty part at the delivery's start.
pub(crate) fn article_in(d: Delivery<'_>, at: usize, k: usize) -> Span
    ensures { result ≡ article_at d.entry.syntax d.entry.bytes.now at k }
{
    match sheet_with_price(d, at, k) {
        Ok(sheet) => price::article_at(d, sheet.start, sheet.end, k),
        Err(_) => Span { start: 0, end: 0 },
    }
}
