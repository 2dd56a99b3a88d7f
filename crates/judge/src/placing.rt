// Places one segment after the other: its node, or the first fault in the order 13, 15 or 25, 14.
ghost use Rattle.std.specs.Prelude.{◌≡◌};
ghost use Rattle.judge.specs.Answers.{answer_of, placed_in, counts_in};

use crate::counting::enter;
use crate::lacking::missing_node;
use crate::pairs::reason_over;
use crate::rows::limit_of;
use crate::seeking::node_for;
use cut::Delivery;
use guide::{Edition, Reason};

// Why a segment has no place, and the row of the node that is named; 0 for none.
#[derive(Clone, Copy, PartialEq, Eq, Debug)]
pub struct Misplaced {
    pub reason: Reason,
    pub node: usize,
}

// The row of the node of the segment from start up to end, which comes after the node `last`; `counts` says how often each node has come in the
// open instance of its parent. A refusal leaves the counts as they are.
pub fn place(
    edition: Edition,
    d: Delivery<'_>,
    start: usize,
    end: usize,
    last: usize,
    counts: &mut [u32; 96],
) -> Result<usize, Misplaced>
    ensures value { answer_of result ≡ placed_in d.entry.syntax edition d.entry.bytes.now start end last counts.old }
    ensures counts_after { counts.new ≡ counts_in d.entry.syntax edition d.entry.bytes.now start end last counts.old }
{
    let Some(n) = node_for(d.syntax, edition, d.bytes, start, end, last) else {
        return Err(Misplaced {
            reason: Reason::NoNode,
            node: 0,
        });
    };
    if limit_of(edition, n) <= counts[n] {
        let reason = reason_over(edition, counts, n);
        return Err(Misplaced { reason, node: n });
    }
    if let Some(m) = missing_node(edition, counts, n, last) {
        return Err(Misplaced {
            reason: Reason::NodeMissing,
            node: m,
        });
    }
    enter(edition, n, counts);
    Ok(n)
}
