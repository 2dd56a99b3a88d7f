// The calls over a delivery, each read with the delivery's own service characters: those of UNA, or those handed in.
ghost use Rattle.std.specs.Prelude.{◌≡◌};
ghost use Rattle.cut.specs.Admission.{number_of as inadmissible_number};
ghost use Rattle.cut.specs.Used.{characters_of};
ghost use Rattle.envelope.specs.Envelope.{enveloped, envelope_of};
ghost use Rattle.messages.specs.Calls.{next_message};
ghost use Rattle.schaumtruhe.specs.Readings.{used_in};
ghost use Rattle.schaumtruhe.specs.Refusals.{number_of, numbered, refusal_number, told};
ghost use Rattle.schaumtruhe.specs.Calls.{survey_of, verdict_at, priced_at, row_at, article_refusal, article_at, IsSpan};

use crate::articles::{article_in, article_refused};
use crate::judging::verdict_at;
use crate::pricing::fill_at;
use crate::reading::Reading;
use crate::refusal::Refusal;
use crate::surveys::{Survey, counted};
use crate::unaccepted::Unaccepted;
use cut::{Delivery, Inadmissible, Syntax};
use element::Span;
use envelope::Incomplete;
use messages::Message;
use price::Filled;
use verdict::Accepted;

// The whole delivery: messages found, accepted, and segments outside; or 1 or 2.
pub fn survey(how: Reading, d: &[u8]) -> Result<Survey, Inadmissible>
    ensures { numbered inadmissible_number result ≡ survey_of (used_in how d.now) d.now }
{
    counted(Delivery::read(how.syntax, d))
}

// The next message that begins at `from` or later, with its start and end, or nothing; nothing in a delivery that is not admitted.
pub fn next_message(y: Syntax, d: &[u8], from: usize) -> Option<Message>
    ensures { result ≡ next_message (characters_of y d.now) d.now from }
{
    messages::next_message(Delivery::read(y, d), from)
}

// Whether the delivery is complete: UNB, UNZ and nothing but messages between them; or 1, 2 or one of 50 to 55, and where.
pub fn envelope(y: Syntax, d: &[u8]) -> Result<(), Incomplete>
    ensures { enveloped result ≡ envelope_of (characters_of y d.now) d.now }
{
    envelope::judged(Delivery::read(y, d))
}

// The verdict of the message that begins at a place: 1 or 2; 31 if none begins there; else accepted or refused.
pub fn judge_at(how: Reading, d: &[u8], at: usize) -> Result<Accepted, Unaccepted>
    ensures { told result ≡ verdict_at (used_in how d.now) d.now at }
{
    verdict_at(Delivery::read(how.syntax, d), at)
}

// The prices of that message from the k-th on, eight numbers to a price, as many as fit whole; a refusal (1, 2, 31, 30) writes nothing.
pub fn prices(
    how: Reading,
    d: &[u8],
    at: usize,
    k: usize,
    row: &mut [i64],
) -> Result<Filled, Refusal>
    ensures value { numbered number_of result ≡ priced_at (used_in how d.now) d.now at k row.old }
    ensures row_after { row.new ≡ row_at (used_in how d.now) d.now at k row.old }
{
    fill_at(Delivery::read(how.syntax, d), at, k, row)
}

// Why the article of price k is refused: 1, 2, 31, 30, 32, in this order.
pub fn article_refusal(how: Reading, d: &[u8], at: usize, k: usize) -> Result<(), Refusal>
    ensures { refusal_number result ≡ article_refusal (used_in how d.now) d.now at k }
{
    article_refused(Delivery::read(how.syntax, d), at, k)
}

// Where the article of price k stands: an absent one is the empty part at the message's start, that of a refused call the empty part at the
// delivery's start.
pub fn article_at(how: Reading, d: &[u8], at: usize, k: usize) -> Span
    ensures { result ≡ article_at (used_in how d.now) d.now at k }
{
    article_in(Delivery::read(how.syntax, d), at, k)
}

// The article itself, as that part of the delivery.
pub fn article(how: Reading, d: &[u8], at: usize, k: usize) -> &[u8]
    ensures { IsSpan d.entry result (article_at (used_in how d.now) d.now at k) }
{
    let s = article_at(how, d, at, k);
    &d[s.start..s.end]
}
