// The printer: before the first line, and from chunk to chunk.
ghost use Rattle.std.specs.Prelude.{◌≡◌, true};
ghost use Rattle.print.specs.Report.{report_of};
ghost use Rattle.print.specs.Printing.{left_to, sound, Stepped};

use crate::message_lines::{between, refused};
use crate::price_lines::{among, within};
use crate::state::{Chunk, Counts, Printer, Stage, Unprinted};
use cut::{Delivery, characters};
use schaumtruhe::Reading;

// Before the first line of a delivery.
pub fn printer(how: Reading, d: &[u8]) -> Printer
    ensures { (left_to d.now result ≡ report_of how d.now) × (sound result.counts ≡ true) }
{
    let syntax = characters(how.syntax, d);
    let delivery = Delivery { syntax, bytes: d };
    match cut::admission(delivery) {
        Ok(()) => Printer {
            syntax,
            counts: Counts::starting(cut::opening(delivery)),
            stage: Stage::Between,
        },
        Err(reason) => Printer {
            syntax,
            counts: Counts::starting(0),
            stage: Stage::Refused {
                number: u32::from(reason),
            },
        },
    }
}

// The next chunk of what is left to print of a delivery, at the front of a lent buffer; or nothing, when all is printed. Only a chunk writes.
pub fn step(d: &[u8], p: Printer, out: &mut [u8]) -> Result<Option<Chunk>, Unprinted>
    ensures { Stepped d.now p out.old out.new result }
{
    if out.len() < 128 {
        return Err(Unprinted::Short);
    }
    let c = p.counts;
    if !c.is_sound() {
        return Err(Unprinted::Foreign);
    }
    let delivery = Delivery {
        syntax: p.syntax,
        bytes: d,
    };
    match p.stage {
        Stage::Refused { number } => Ok(Some(refused(delivery, c, number, out))),
        Stage::Between => Ok(Some(between(delivery, c, out))),
        Stage::Prices { cursor } => Ok(Some(among(delivery, c, cursor, out))),
        Stage::Article { cursor, rest } => Ok(Some(within(delivery, c, cursor, rest, out))),
        Stage::Ended => Ok(None),
    }
}
