// A part of a row is two places; an end past the row counts as the row's end.
ghost use Rattle.std.specs.Prelude.{◌≡◌, min, length};

// The end of a part that is to end at e.
pub fn limit_of(d: &[u8], e: usize) -> usize
    ensures { result ≡ min e (length d.now) }
{
    e.min(d.len())
}
