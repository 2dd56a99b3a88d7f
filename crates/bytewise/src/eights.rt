// Eight bytes as one number, so that a test of all eight is a few operations.
ghost use Rattle.std.specs.Prelude.{◌≡◌, ◌+◌, ◌≤◌, length, eqb};
ghost use Rattle.bytewise.specs.Eights.{eight_at, Flagged, first_byte};

const ONES: u64 = 0x0101_0101_0101_0101;

const LOW: u64 = 0x7f7f_7f7f_7f7f_7f7f;

const HIGH: u64 = 0x8080_8080_8080_8080;

// The eight bytes from `at` on, the first the lowest digit; 0 where fewer stand there.
pub fn eight_at(d: &[u8], at: usize) -> u64
    ensures { result ≡ eight_at d.now at }
{
    if at < d.len().saturating_sub(7) {
        eight_from(d, at)
    } else {
        0
    }
}

// The same where eight bytes stand there: one load of a word.
pub(crate) fn eight_from(d: &[u8], at: usize) -> u64
    requires { at + 8 ≤ length d.now }
    ensures { result ≡ eight_at d.now at }
{
    u64::from_le_bytes([
        d[at],
        d[at + 1],
        d[at + 2],
        d[at + 3],
        d[at + 4],
        d[at + 5],
        d[at + 6],
        d[at + 7],
    ])
}

// The high bit of each of eight bytes that is x: no sum of two low parts reaches the next byte.
pub fn alike(w: u64, x: u8) -> u64
    ensures { Flagged w (λ b. eqb b x) result }
{
    let v = w ^ ONES * (x as u64);
    (((v & LOW) + LOW | v) & HIGH) ^ HIGH
}

// The first of eight bytes that is not 0, as the first of those that are flagged; 8, if there is none.
pub fn first_of(m: u64) -> usize
    ensures { result ≡ first_byte m }
{
    u64::trailing_zeros(m) as usize / 8
}
