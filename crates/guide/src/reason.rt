// Why a message is refused.
ghost use Rattle.std.specs.Prelude.{◌≡◌};
ghost use Rattle.guide.specs.Reasons.{number_of_reason};

// The first fault of a segment, a fault of all its segments together, or of its end. Each has the number that the table of the refusals gives it.
#[derive(Clone, Copy, PartialEq, Eq, Debug)]
pub enum Reason {
    // The segment holds a byte that is not allowed.
    ByteNotAllowed,
    // It does not begin with a tag.
    NoTag,
    // It is a piece that no terminator ends.
    Unterminated,
    // No node takes it.
    NoNode,
    // A node that must come before it is missing.
    NodeMissing,
    // Its node has come as often as it may.
    OverLimit,
    // Its node is one of a pair, and has come.
    SecondOfPair,
    // A component is missing.
    ComponentMissing,
    // A component stands where none is used.
    NotUsed,
    // A component has not its format.
    WrongFormat,
    // A component is no code of its page.
    WrongCode,
    // UNT has not the count of the segments, or not the reference of UNH.
    WrongEnd,
    // LIN has not the next number.
    WrongLine,
    // LIN agrees with an earlier one.
    Repeated,
    // The message ends without UNT.
    NoEnd,
}

// The refusal number.
impl From<Reason> for u32 {
    ghost from_gives = { λ reason number. number ≡ number_of_reason reason };

    fn from(reason: Reason) -> u32 {
        match reason {
            Reason::ByteNotAllowed => 10,
            Reason::NoTag => 11,
            Reason::Unterminated => 12,
            Reason::NoNode => 13,
            Reason::NodeMissing => 14,
            Reason::OverLimit => 15,
            Reason::SecondOfPair => 25,
            Reason::ComponentMissing => 17,
            Reason::NotUsed => 18,
            Reason::WrongFormat => 19,
            Reason::WrongCode => 20,
            Reason::WrongEnd => 21,
            Reason::WrongLine => 22,
            Reason::Repeated => 23,
            Reason::NoEnd => 24,
        }
    }
}
