// The printer's state, a value; and what a step answers.
ghost use Rattle.std.specs.Prelude.{◌≡◌};
ghost use Rattle.print.specs.Printing.{sound};

use cut::Syntax;
use price::Cursor;

// How far the walk over the delivery has come, and what it has counted. Anyone can make one, so that its soundness is tested and no invariant.
#[derive(Clone, Copy, PartialEq, Eq, Debug)]
pub struct Counts {
    pub at: usize,
    pub messages: usize,
    pub accepted: usize,
    pub outside: usize,
}

impl Counts {
    // Nothing is counted yet.
    pub(crate) fn starting(at: usize) -> Counts
        ensures { result ≡ record { at = at; messages = 0; accepted = 0; outside = 0 } }
    {
        Counts {
            at,
            messages: 0,
            accepted: 0,
            outside: 0,
        }
    }

    #[tactic(auto, unfolding(crate::specs::Printing::sound))]
    pub(crate) fn is_sound(self) -> bool
        ensures { result ≡ sound self }
    {
        self.messages <= self.at && self.accepted <= self.at && self.outside <= self.at
    }
}

// What is left of an article that is being printed, and the numbers behind it.
#[derive(Clone, Copy, PartialEq, Eq, Debug)]
pub struct Rest {
    pub from: usize,
    pub to: usize,
    pub amount: i64,
    pub decimals: i64,
}

// What comes next: the line of a refused delivery; a message or the last line; a price of the message that ends where the counts stand; the rest
// of an article; nothing.
#[derive(Clone, Copy)]
pub enum Stage {
    Refused { number: u32 },
    Between,
    Prices { cursor: Cursor },
    Article { cursor: Cursor, rest: Rest },
    Ended,
}

#[derive(Clone, Copy)]
pub struct Printer {
    pub syntax: Syntax,
    pub counts: Counts,
    pub stage: Stage,
}

// So many bytes were written, and the printer behind them.
#[derive(Clone, Copy)]
pub struct Chunk {
    pub length: usize,
    pub next: Printer,
}

impl Chunk {
    // These bytes, and behind them a printer at this stage.
    pub(crate) fn new(length: usize, syntax: Syntax, counts: Counts, stage: Stage) -> Chunk
        ensures { result ≡ record { length = length; next = record { syntax = syntax; counts = counts; stage = stage } } }
    {
        let next = Printer {
            syntax,
            counts,
            stage,
        };
        Chunk { length, next }
    }
}

// Why nothing is printed: the buffer is too short; or the printer is none that was made here.
#[derive(Clone, Copy, PartialEq, Eq, Debug)]
pub enum Unprinted {
    Short,
    Foreign,
}
