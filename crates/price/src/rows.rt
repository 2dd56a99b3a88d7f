// The numbers of a price in a lent row.
ghost use Rattle.std.specs.Prelude.{◌<◌, ◌/◌, ◌≡◌, length};
ghost use Rattle.price.specs.workers.Parts.{put_row};

use crate::numbers::Numbers;

// Eight numbers from the place 8 n on, where they fit.
pub(crate) fn put_row(row: &mut [i64], n: usize, p: Numbers)
    requires { n < length row.old / 8 }
    ensures { row.new ≡ put_row row.old n p }
{
    let i = n * 8;
    row[i..i + 8].copy_from_slice(&<[i64; 8]>::from(p));
}
