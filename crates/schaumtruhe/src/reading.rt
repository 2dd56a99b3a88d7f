// How a delivery is read, a value that every call which judges takes first. Its layout is C's, since the exported calls take it too.
ghost use Rattle.std.specs.Prelude.{◌≡◌};
ghost use Rattle.schaumtruhe.specs.Readings.{usual_reading, strict_reading};

use cut::Syntax;

#[repr(C)]
#[derive(Clone, Copy)]
pub struct Reading {
    pub syntax: Syntax,
}

// The usual case: the service characters `:+.?'`, and line breaks between segments are skipped.
pub fn usual() -> Reading
    ensures { result ≡ usual_reading }
{
    let syntax = cut::usual();
    Reading { syntax }
}

// The same characters; no byte is skipped.
pub fn strict() -> Reading
    ensures { result ≡ strict_reading }
{
    let syntax = cut::strict();
    Reading { syntax }
}
