// Which tag a node has.
ghost use Rattle.std.specs.Prelude.{◌≡◌};
ghost use Rattle.guide.specs.Sheet.{is_tag};
ghost use Rattle.guide.specs.Editions.{guide_of};

use crate::editions::rows_of;
use crate::rows::tag_of;
use crate::words::pack;
use guide::Edition;

// Whether node n has this tag; past the table's end there is no node.
pub fn has_tag(edition: Edition, n: usize, tag: &[u8; 3]) -> bool
    ensures { result ≡ is_tag (guide_of edition) tag.now n }
{
    n < rows_of(edition) && tag_of(edition, n) == pack(tag)
}
