// The table of the articles that came: three bits of a word for each print, and three more for a number made of it. An article whose bits are not all set did
// not come. It is small, since it is cleared for each message.
ghost use Rattle.std.specs.Prelude.{◌≡◌};
ghost use Rattle.sieve.specs.workers.Came.{word_of, bits_of, set_in, with_bits, came_in, note_in};

use crate::prints::mixed;

// The remainder changes nothing here: it is there for the laws, which take any number.
fn word_of(f: u32) -> usize
    ensures { result ≡ word_of f }
{
    (f / 16777216 % 256) as usize
}

fn bits_of(f: u32) -> u64
    ensures { result ≡ bits_of f }
{
    (1u64 << (f / 262144 % 64)) | (1u64 << (f / 4096 % 64)) | (1u64 << (f / 64 % 64))
}

fn is_set(t: &[u64; 256], f: u32) -> bool
    ensures { result ≡ set_in t.now f }
{
    let i = word_of(f);
    let v = t[i];
    v | bits_of(f) == v
}

fn set(t: &mut [u64; 256], f: u32)
    ensures { t.new ≡ with_bits t.old f }
{
    let i = word_of(f);
    let v = t[i];
    t[i] = v | bits_of(f);
}

// Whether the print may have come.
pub(crate) fn came(t: &[u64; 256], f: u32) -> bool
    ensures { result ≡ came_in t.now f }
{
    if !is_set(t, f) {
        return false;
    }
    is_set(t, mixed(f, 0, 0))
}

pub(crate) fn note(t: &mut [u64; 256], f: u32)
    ensures { t.new ≡ note_in t.old f }
{
    set(t, f);
    set(t, mixed(f, 0, 0));
}
