// Sets of nodes, bit n for row n.
ghost use Rattle.std.specs.Prelude.{◌<◌, ◌≡◌, length};
ghost use Rattle.guide.specs.Editions.{guide_of};
ghost use Rattle.judge.specs.workers.Sets.{followers_of, due_after, coded_of, preceding_of, children_of};

use crate::after_words::after;
use crate::entry_words::entry;
use guide::Edition;

// The nodes of a set that are left, from the lowest on.
#[derive(Clone, Drop)]
pub(crate) struct NodeSet(pub(crate) u32);

impl Iterator for NodeSet {
    ghost use Rattle.judge.specs.workers.NodeSets.{TakesLowest, left_in};

    type Item = usize;

    ghost next_gives = { TakesLowest };

    ghost remaining = { left_in };

    fn next(&mut self) -> Option<usize> {
        if self.0 == 0 {
            return None;
        }
        let lowest = self.0.trailing_zeros() as usize;
        self.0 &= self.0 - 1;
        Some(lowest)
    }
}

// The nodes that can come after the node `last`, by parent and counter alone.
pub(crate) fn followers(edition: Edition, last: usize) -> u32
    ensures { result ≡ followers_of (guide_of edition) last }
{
    (after(edition, last) % 0x1_0000_0000) as u32
}

// The nodes that may be missed in an open instance after the node `last`.
pub(crate) fn due(edition: Edition, last: usize) -> u32
    ensures { result ≡ due_after (guide_of edition) last }
{
    (after(edition, last) / 0x1_0000_0000) as u32
}

// The nodes that have codes.
pub(crate) fn coded(edition: Edition) -> u32
    ensures { result ≡ coded_of (guide_of edition) }
{
    match edition {
        Edition::D => 0x086087f8,
        Edition::C => 0x021843f8,
    }
}

// The nodes that node n must come behind.
pub(crate) fn preceding(edition: Edition, n: usize) -> u32
    requires { n < length (guide_of edition) }
    ensures { result ≡ preceding_of (guide_of edition) n }
{
    (entry(edition, n) % 0x1_0000_0000) as u32
}

// The children of node n.
pub(crate) fn children(edition: Edition, n: usize) -> u32
    requires { n < length (guide_of edition) }
    ensures { result ≡ children_of (guide_of edition) n }
{
    (entry(edition, n) / 0x1_0000_0000) as u32
}
