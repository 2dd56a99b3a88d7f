// The tables of the editions. Here and in the files of words each edition has a table of its own, and one function chooses: a trait for two unit types would
// hold the same matches and still need that choice, and one match over edition and number would be too long a function.
ghost use Rattle.std.specs.Prelude.{◌≡◌, length};
ghost use Rattle.guide.specs.Editions.{guide_of};

use guide::Edition;

// How many rows the table has, the message's row counted.
pub(crate) fn rows_of(edition: Edition) -> usize
    ensures { result ≡ length (guide_of edition) }
{
    match edition {
        Edition::D => 28,
        Edition::C => 26,
    }
}
