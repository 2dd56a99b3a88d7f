// Each answer as numbers: first 0 or document 01's refusal number; what a refusal does not give is 0.
// Whether there is an answer is a number too, since the structs are the C interface.
ghost use Rattle.std.specs.Prelude.{◌≡◌};
ghost use Rattle.cut.specs.Admission.{number_of as inadmissible_number};
ghost use Rattle.envelope.specs.Envelope.{enveloped as judged_envelope};
ghost use Rattle.schaumtruhe.specs.Refusals.{number_of, numbered, told};
ghost use Rattle.schaumtruhe_c.specs.Answers.{totals_of, enveloped, next_of, judged_of, prices_of, segment_of};

use cut::{Cut, Inadmissible};
use envelope::Incomplete;
use messages::Message;
use price::Filled;
use schaumtruhe::{Refusal, Survey, Unaccepted};
use verdict::Accepted;

// The whole delivery: messages found, accepted, and segments outside.
#[repr(C)]
#[derive(Clone, Copy)]
pub struct Totals {
    pub number: u32,
    pub messages: usize,
    pub accepted: usize,
    pub outside: usize,
}

// 0 and 0 if the envelope is complete; or the refusal and its place.
#[repr(C)]
#[derive(Clone, Copy)]
pub struct Envelope {
    pub number: u32,
    pub place: usize,
}

// 1 and a message's first byte and the byte after its last; or 0.
#[repr(C)]
#[derive(Clone, Copy)]
pub struct Next {
    pub found: u32,
    pub start: usize,
    pub end: usize,
}

// Refused: number, segment, place of its first byte, node. Accepted: 0, the count of segments, the byte after the message, 0.
#[repr(C)]
#[derive(Clone, Copy)]
pub struct Judged {
    pub number: u32,
    pub segment: usize,
    pub place: usize,
    pub node: usize,
}

// How many prices were written, and how many the message has.
#[repr(C)]
#[derive(Clone, Copy)]
pub struct Prices {
    pub number: u32,
    pub written: usize,
    pub total: usize,
}

// Where an article stands in the delivery, and its length with releases.
#[repr(C)]
#[derive(Clone, Copy)]
pub struct Article {
    pub number: u32,
    pub place: usize,
    pub length: usize,
}

// 1 and a segment's first byte, the byte after its last, and 1 if it is a piece, else 0; or 0.
#[repr(C)]
#[derive(Clone, Copy)]
pub struct Segment {
    pub found: u32,
    pub start: usize,
    pub end: usize,
    pub piece: u32,
}

impl From<Result<Survey, Inadmissible>> for Totals {
    ghost from_gives = { λ s t. t ≡ totals_of (numbered inadmissible_number s) };

    fn from(survey: Result<Survey, Inadmissible>) -> Totals {
        match survey {
            Ok(s) => Totals {
                number: 0,
                messages: s.messages,
                accepted: s.accepted,
                outside: s.outside,
            },
            Err(reason) => Totals {
                number: reason.into(),
                messages: 0,
                accepted: 0,
                outside: 0,
            },
        }
    }
}

impl From<Result<(), Incomplete>> for Envelope {
    ghost from_gives = { λ e answer. answer ≡ enveloped (judged_envelope e) };

    fn from(envelope: Result<(), Incomplete>) -> Envelope {
        match envelope {
            Ok(()) => Envelope {
                number: 0,
                place: 0,
            },
            Err(e) => Envelope {
                number: e.reason.into(),
                place: e.place,
            },
        }
    }
}

impl From<Option<Message>> for Next {
    ghost from_gives = { λ found answer. answer ≡ next_of found };

    fn from(found: Option<Message>) -> Next {
        match found {
            Some(m) => Next {
                found: 1,
                start: m.start,
                end: m.end,
            },
            None => Next {
                found: 0,
                start: 0,
                end: 0,
            },
        }
    }
}

impl From<Result<Accepted, Unaccepted>> for Judged {
    ghost from_gives = { λ v answer. answer ≡ judged_of (told v) };

    fn from(v: Result<Accepted, Unaccepted>) -> Judged {
        match v {
            Ok(a) => Judged {
                number: 0,
                segment: a.segments,
                place: a.end,
                node: 0,
            },
            Err(Unaccepted::Call(refusal)) => Judged {
                number: refusal.into(),
                segment: 0,
                place: 0,
                node: 0,
            },
            Err(Unaccepted::Message(r)) => Judged {
                number: r.reason.into(),
                segment: r.segment,
                place: r.place,
                node: r.node,
            },
        }
    }
}

impl From<Result<Filled, Refusal>> for Prices {
    ghost from_gives = { λ p answer. answer ≡ prices_of (numbered number_of p) };

    fn from(priced: Result<Filled, Refusal>) -> Prices {
        match priced {
            Ok(filled) => Prices {
                number: 0,
                written: filled.written,
                total: filled.total,
            },
            Err(refusal) => Prices {
                number: refusal.into(),
                written: 0,
                total: 0,
            },
        }
    }
}

impl From<Option<Cut>> for Segment {
    ghost from_gives = { λ found answer. answer ≡ segment_of found };

    fn from(found: Option<Cut>) -> Segment {
        match found {
            Some(c) => Segment {
                found: 1,
                start: c.start,
                end: c.end,
                piece: u32::from(c.piece),
            },
            None => Segment {
                found: 0,
                start: 0,
                end: 0,
                piece: 0,
            },
        }
    }
}
