// Whether a row of bytes begins with a word.
ghost use Rattle.std.specs.Prelude.{◌≡◌};
ghost use Rattle.bytewise.specs.Bytes.{begins};

pub fn begins_with(d: &[u8], word: &[u8]) -> bool
    ensures { result ≡ begins word.now d.now }
{
    // std's starts_with compares in groups, which takes longer for a short word.
    if d.len() < word.len() {
        return false;
    }
    for i in 0..word.len() {
        if d[i] != word[i] {
            return false;
        }
    }
    true
}
