// Seeks the node that takes a segment: 13's question.
ghost use Rattle.std.specs.Prelude.{suc, ◌≡◌, ◌&&◌, map};
ghost use Rattle.bytewise.specs.Bytes.{part};
ghost use Rattle.guide.specs.Nodes.{node};
ghost use Rattle.guide.specs.workers.Placing.{first_node, levels, seek};
ghost use Rattle.guide.specs.Views.{view_of};
ghost use Rattle.guide.specs.Editions.{guide_of};
ghost use Rattle.guide.specs.Options.{unless_0};
ghost use Rattle.judge.specs.workers.Words.{packed, picks};
ghost use Rattle.judge.specs.workers.Sets.{member, Nodes};

use crate::matching::is_chosen;
use crate::sets::{NodeSet, coded, followers};
use crate::tag_sets::tagged;
use crate::words::{key_number, tag_number};
use cut::Syntax;
use guide::Edition;

// The lowest of these nodes that is found by the key, or by its tag alone.
fn found_by(edition: Edition, nodes: u32, key: u64) -> Option<usize>
    requires { Nodes (guide_of edition) nodes }
    ensures { result ≡ unless_0 (first_node (guide_of edition) (λ n. member nodes n && picks (map packed (node (guide_of edition) n).selector.codes) key)) }
{
    for n in NodeSet(nodes) {
        if is_chosen(edition, n, key) {
            return Some(n);
        }
    }
    None
}

// The node that takes the segment after the node `last`, in the innermost open instance that has one. No two instances have followers
// of one tag, so of those that have the segment's the lowest that it fits is the one. The component in which all codes are looked for is read once,
// and where none of them has codes it is not read. The characters and the bytes come apart, as in `key_number`: of a slice it is known that no byte is
// above 255, and that is lost behind a struct's reference.
pub(crate) fn node_for(
    y: Syntax,
    edition: Edition,
    d: &[u8],
    start: usize,
    end: usize,
    last: usize,
) -> Option<usize>
    ensures { result ≡ unless_0 (seek (guide_of edition) (view_of y (part start end d.now)) (levels (guide_of edition) (suc last) last 0)) }
{
    let tag = tag_number(d, start, end);
    let likely = followers(edition, last) & tagged(edition, tag);
    if likely & coded(edition) == 0 {
        return NodeSet(likely).next();
    }
    let key = key_number(y, d, start, end);
    found_by(edition, likely, key)
}
