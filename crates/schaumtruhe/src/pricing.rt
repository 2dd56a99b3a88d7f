// The prices of the message that begins at a place, into a lent row.
ghost use Rattle.std.specs.Prelude.{◌≡◌};
ghost use Rattle.schaumtruhe.specs.Refusals.{number_of, numbered};
ghost use Rattle.schaumtruhe.specs.Calls.{priced_at, row_at};

use crate::refusal::Refusal;
use crate::sheets::sheet_at;
use cut::Delivery;
use price::{Filled, fill};

// How many prices were written, from the k-th on, and how many the message has; a refusal (1, 2, 31, 30) writes nothing.
pub(crate) fn fill_at(
    d: Delivery<'_>,
    at: usize,
    k: usize,
    row: &mut [i64],
) -> Result<Filled, Refusal>
    ensures value { numbered number_of result ≡ priced_at d.entry.syntax d.entry.bytes.now at k row.old }
    ensures row_after { row.new ≡ row_at d.entry.syntax d.entry.bytes.now at k row.old }
{
    let sheet = sheet_at(d, at)?;
    Ok(fill(d, sheet.start, sheet.end, k, row))
}
