// Judges the delivery on standard input: in the usual reading, or strictly where the one argument is `--strict`.
#![tactic(auto)]

use schaumtruhe::Reading;
use std::env::{Env, FillError};

// Whether the program was started with an i-th argument; the row takes none of a byte or more.
fn has_argument(rt: &impl Env, i: usize) -> bool {
    !matches!(rt.arg(i, &mut [0u8; 1]), Err(FillError::NotPresent))
}

// The reading that the arguments ask for, if they are those above. An argument that is longer than the row is not read.
fn asked(rt: &impl Env) -> Option<Reading> {
    if !has_argument(rt, 1) {
        return Some(schaumtruhe::usual());
    }
    let mut word = [0u8; 8];
    let n = rt.arg(1, &mut word).unwrap_or(0);
    if !has_argument(rt, 2) && n == 8 && word == *b"--strict" {
        Some(schaumtruhe::strict())
    } else {
        None
    }
}

// Any other argument is refused: a slip in the word would else read the delivery in the other way.
fn main(rt: HostRuntime) {
    match asked(&rt) {
        Some(how) => report::check_input(&rt, how),
        None => {
            let _ = rt.eprint(
                "sheetcheck: usage: sheetcheck [--strict], with the delivery on standard input\n",
            );
        }
    }
}
