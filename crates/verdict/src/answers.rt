// What a message is told.

use guide::Reason;

// An accepted message: the count of its segments, and the byte after it.
#[derive(Clone, Copy, PartialEq, Eq, Debug)]
pub struct Accepted {
    pub segments: usize,
    pub end: usize,
}

// A refused one: the reason, the segment, the place of its first byte, and its node.
#[derive(Clone, Copy, PartialEq, Eq, Debug)]
pub struct Refused {
    pub reason: Reason,
    pub segment: usize,
    pub place: usize,
    pub node: usize,
}

pub type Verdict = Result<Accepted, Refused>;

// A message's verdict, and the byte after the message.
#[derive(Clone, Copy)]
pub struct Judged {
    pub verdict: Verdict,
    pub end: usize,
}
