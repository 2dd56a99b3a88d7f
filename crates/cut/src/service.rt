// How a delivery is cut, a value that every layer passes on.
ghost use Rattle.std.specs.Prelude.{◌≡◌};
ghost use Rattle.bytewise.specs.Bytes.{part};
ghost use Rattle.cut.specs.Base.{edifact, strictly};

// The service characters in the order in which UNA gives them (ISO 9735; the reserved byte, a blank, stands before the last), and whether the
// line breaks between segments are skipped.
#[repr(C)]
#[derive(Clone, Copy, PartialEq, Eq, Debug)]
pub struct Syntax {
    pub component: u8,
    pub element: u8,
    pub decimal: u8,
    pub release: u8,
    pub terminator: u8,
    pub skips: bool,
}

// The bytes of a delivery, or of a part that is read as one, with what they are read by.
#[derive(Clone, Copy)]
pub struct Delivery<'a> {
    pub syntax: Syntax,
    pub bytes: &'a [u8],
}

impl<'a> Delivery<'a> {
    // Its bytes by themselves: of a slice it is known that no byte is above 255, and behind a struct's reference that is lost.
    pub fn row(self) -> &'a [u8]
        ensures { result.now ≡ self.entry.bytes.now }
    {
        self.bytes
    }

    // Its beginning, up to a place.
    pub fn until(self, end: usize) -> Delivery<'a>
        ensures syntax { result.syntax ≡ self.entry.syntax }
        ensures bytes { result.bytes.now ≡ part 0 end self.entry.bytes.now }
    {
        let end = end.min(self.bytes.len());
        Delivery {
            bytes: &self.bytes[..end],
            ..self
        }
    }
}

// `:+.?'`, where UNA is `UNA:+.? '`; line breaks between segments are skipped.
pub fn usual() -> Syntax
    ensures { result ≡ edifact }
{
    Syntax {
        component: b':',
        element: b'+',
        decimal: b'.',
        release: b'?',
        terminator: b'\'',
        skips: true,
    }
}

// The same characters; no byte is skipped.
pub fn strict() -> Syntax
    ensures { result ≡ strictly edifact }
{
    Syntax {
        skips: false,
        ..usual()
    }
}
