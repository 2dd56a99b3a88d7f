// The exported calls, and the two readings that they take.
ghost use Rattle.std.specs.Prelude.{◌+◌, min, ◌≡◌, length};
ghost use Rattle.cut.specs.Used.{characters_of};
ghost use Rattle.plain.specs.Plain.{copied};
ghost use Rattle.envelope.specs.Envelope.{envelope_of};
ghost use Rattle.messages.specs.Calls.{next_message};
ghost use Rattle.held.specs.Reading.{next_from};
ghost use Rattle.schaumtruhe.specs.Readings.{usual_reading, strict_reading, used_in};
ghost use Rattle.schaumtruhe.specs.Refusals.{refusal_number};
ghost use Rattle.schaumtruhe.specs.Calls.{survey_of, verdict_at, priced_at, row_at};
ghost use Rattle.schaumtruhe_c.specs.Answers.{totals_of, enveloped, next_of, judged_of, prices_of, article_answer, segment_of, plain_at};

use crate::answers::{Article, Envelope, Judged, Next, Prices, Segment, Totals};
use cut::{Delivery, Syntax, admission, characters};
use held::step_from;
use plain::{copy_plain, plain_length};
use schaumtruhe::{
    Reading, Refusal, article_at, article_refusal, envelope, judge_at, next_message, prices,
    strict, survey, usual,
};

// Line breaks between segments are skipped.
#[unsafe(no_mangle)]
pub extern "C" fn schaumtruhe_usual() -> Reading
    ensures { result ≡ usual_reading }
{
    usual()
}

// No byte is skipped.
#[unsafe(no_mangle)]
pub extern "C" fn schaumtruhe_strict() -> Reading
    ensures { result ≡ strict_reading }
{
    strict()
}

// The whole delivery; or 1 or 2.
#[unsafe(no_mangle)]
pub extern "C" fn schaumtruhe_survey(how: Reading, d: &[u8]) -> Totals
    ensures { result ≡ totals_of (survey_of (used_in how d.now) d.now) }
{
    survey(how, d).into()
}

// Whether the delivery is complete; or 1, 2 or one of 50 to 55, and where.
#[unsafe(no_mangle)]
pub extern "C" fn schaumtruhe_envelope(y: Syntax, d: &[u8]) -> Envelope
    ensures { result ≡ enveloped (envelope_of (characters_of y d.now) d.now) }
{
    envelope(y, d).into()
}

// The next message that begins at `from` or later; none in a delivery that is not admitted.
#[unsafe(no_mangle)]
pub extern "C" fn schaumtruhe_next_message(y: Syntax, d: &[u8], from: usize) -> Next
    ensures { result ≡ next_of (next_message (characters_of y d.now) d.now from) }
{
    next_message(y, d, from).into()
}

// The verdict of the message that begins at a place; or 1, 2 or 31.
#[unsafe(no_mangle)]
pub extern "C" fn schaumtruhe_judge_at(how: Reading, d: &[u8], at: usize) -> Judged
    ensures { result ≡ judged_of (verdict_at (used_in how d.now) d.now at) }
{
    judge_at(how, d, at).into()
}

// The prices of that message from the k-th on, into the lent row; a refusal (1, 2, 31, 30) writes nothing.
#[unsafe(no_mangle)]
pub extern "C" fn schaumtruhe_prices(
    how: Reading,
    d: &[u8],
    at: usize,
    k: usize,
    row: &mut [i64],
) -> Prices
    ensures value { result ≡ prices_of (priced_at (used_in how d.now) d.now at k row.old) }
    ensures row_after { row.new ≡ row_at (used_in how d.now) d.now at k row.old }
{
    prices(how, d, at, k, row).into()
}

// Where the article of price k stands; or 1, 2, 31, 30 or 32.
#[unsafe(no_mangle)]
pub extern "C" fn schaumtruhe_article(how: Reading, d: &[u8], at: usize, k: usize) -> Article
    ensures { result ≡ article_answer (used_in how d.now) d.now at k }
{
    let number = number_of(article_refusal(how, d, at, k));
    let s = article_at(how, d, at, k);
    let length = s.end - s.start;
    Article {
        number,
        place: s.start,
        length,
    }
}

// Document 01's number, or 0.
fn number_of(refused: Result<(), Refusal>) -> u32
    ensures { result ≡ refusal_number refused }
{
    match refused {
        Ok(()) => 0,
        Err(refusal) => refusal.into(),
    }
}

// One step of the segment reader from a place: the next segment, or none; none in a delivery that is not admitted.
#[unsafe(no_mangle)]
pub extern "C" fn schaumtruhe_segment_at(y: Syntax, d: &[u8], at: usize) -> Segment
    ensures { result ≡ segment_of (next_from y d.now at) }
{
    step_from(y, d, at).into()
}

// The part of the delivery of `count` bytes from a place on, releases removed, into the lent row, as many bytes as fit; and how many it has. None
// in a delivery that is not admitted.
#[unsafe(no_mangle)]
pub extern "C" fn schaumtruhe_plain(
    y: Syntax,
    d: &[u8],
    place: usize,
    count: usize,
    out: &mut [u8],
) -> usize
    ensures value { result ≡ length (plain_at (characters_of y d.now) d.now place count) }
    ensures out_after { out.new ≡ copied (plain_at (characters_of y d.now) d.now place count) out.old }
{
    let z = characters(y, d);
    let delivery = Delivery {
        syntax: z,
        bytes: d,
    };
    match admission(delivery) {
        Ok(()) => {
            let end = behind(d, place, count);
            copy_plain(delivery, place, end, out);
            plain_length(delivery, place, end)
        }
        Err(_) => 0,
    }
}

// The place `count` bytes behind another, or the delivery's end if that comes first.
fn behind(d: &[u8], place: usize, count: usize) -> usize
    ensures { result ≡ min (place + count) (length d.now) }
{
    place.saturating_add(count).min(d.len())
}
