// A delivery, read to its end.
ghost use Rattle.std.specs.Prelude.{◌≤◌, length};

use crate::lines::{delivery_lines, refusal_line};
use crate::writing::{Missing, complain};
use cut::Inadmissible;
use schaumtruhe::Reading;
use std::io::Read;

// What stands on standard input, judged and printed.
pub fn check_input(rt: &(impl Input + Print + Eprint), how: Reading) {
    let mut input = rt.reader();
    check(rt, how, &mut input);
}

// Fills the buffer, or stops where the input ends or a read fails, and answers how many bytes it read.
fn read_full(input: &mut impl Read, buffer: &mut [u8]) -> usize
    ensures { result ≤ length buffer.new }
{
    let mut done = 0;
    // What a read gives says where the next one goes.
    while done < buffer.len() {
        match input.read(&mut buffer[done..]) {
            Ok(n) if n > 0 => done += n,
            _ => break,
        }
    }
    done
}

// What a reader gives, judged and printed; what could not be read or written is told on standard error, and then the last line, E or X,
// is missing. A count that is short may mean the input's end or a read that failed, so one more read decides: it gives 0 at the end. Behind a
// full buffer it gives a byte if there are more than the buffer takes.
pub fn check(rt: &(impl Print + Eprint), how: Reading, input: &mut impl Read) {
    let mut buffer = [0u8; 65536];
    let n = read_full(input, &mut buffer);
    let mut next = [0u8; 1];
    let more = match input.read(&mut next) {
        Ok(more) if more == 0 || n == buffer.len() => more,
        _ => {
            complain(rt, "sheetcheck: the delivery could not be read\n");
            return;
        }
    };
    let written = if more > 0 {
        refusal_line(rt, Inadmissible::TooLong).map_err(Missing::from)
    } else {
        delivery_lines(rt, how, &buffer[..n])
    };
    if let Err(missing) = written {
        if missing == Missing::NoPrices {
            complain(
                rt,
                "sheetcheck: the prices of an accepted message could not be read\n",
            );
        }
        complain(rt, "sheetcheck: not all lines could be written\n");
    }
}
