// The segment's first fault against the page of a node of an edition, 18, 17, 19 or 20, or the places of two of its components.
ghost use Rattle.std.specs.Prelude.{◌≡◌};
ghost use Rattle.guide.specs.Reasons.{numbered};
ghost use Rattle.guide.specs.Editions.{pages_of};
ghost use Rattle.page.specs.Examined.{examined_of};

use crate::pages::{absent, pass};
use crate::places::{Places, nowhere};
use crate::words::node_word;
use bytewise::limit_of;
use cut::Delivery;
use guide::{Edition, Reason};

pub(crate) fn examined(
    edition: Edition,
    node: usize,
    d: Delivery<'_>,
    start: usize,
    end: usize,
) -> Result<Places, Reason>
    ensures { numbered result ≡ examined_of d.entry.syntax (pages_of edition node) d.entry.bytes.now start end }
{
    let page = node_word(edition, node);
    let limit = limit_of(d.bytes, end);
    if limit <= start {
        absent(page, 0)?;
        return Ok(nowhere(start));
    }
    pass(d, start, limit, page)
}
