// A number as decimal text: what a program prints of an amount.
ghost use Rattle.std.specs.Prelude.{◌+◌, ◌-◌, ◌≡◌, ◌++◌, length, take};
ghost use Rattle.value.specs.Text.{digits_in, text_of};

// Writes the digits of m to the end of the row and answers where they begin. The last digit ends the loop; a `for` over the row would have an end that is
// never reached.
fn put_digits(m: u64, out: &mut [u8; 20]) -> usize
    ensures m_value { result + length (digits_in 20 m) ≡ 20 }
    ensures out_after { out.new ≡ take result out.old ++ digits_in 20 m }
{
    let mut at = 20;
    let mut left = m;
    loop {
        at -= 1;
        out[at] = b'0' + (left % 10) as u8;
        left /= 10;
        if left == 0 {
            return at;
        }
    }
}

// Writes the decimal text of n to the end of the row and answers its length; what stands before it stays.
pub fn decimal_text(n: i64, out: &mut [u8; 20]) -> usize
    ensures value { result ≡ length (text_of n) }
    ensures out_after { out.new ≡ take (20 - result) out.old ++ text_of n }
{
    let at = put_digits(n.unsigned_abs(), out);
    if n < 0 {
        out[at - 1] = b'-';
        return 21 - at;
    }
    20 - at
}

// The same for a whole number without a sign.
pub fn count_text(n: u64, out: &mut [u8; 20]) -> usize
    ensures value { result ≡ length (digits_in 20 n) }
    ensures out_after { out.new ≡ take (20 - result) out.old ++ digits_in 20 n }
{
    20 - put_digits(n, out)
}
