// What stands in a row of a table: a digit of one of its words.
ghost use Rattle.std.specs.Prelude.{◌<◌, ◌≡◌, length, take};
ghost use Rattle.guide.specs.Nodes.{node};
ghost use Rattle.guide.specs.Editions.{guide_of};
ghost use Rattle.judge.specs.workers.Rows.{codes_of, first_due, next_due};
ghost use Rattle.judge.specs.workers.Words.{packed};

use crate::tag_words::tag_word;
use crate::term_words::terms;
use guide::Edition;

// The tag, as a number.
pub(crate) fn tag_of(edition: Edition, n: usize) -> u32
    requires { n < length (guide_of edition) }
    ensures { result ≡ packed (node (guide_of edition) n).tag }
{
    (tag_word(edition, n) % 0x1000_0000) as u32
}

// The counter.
pub(crate) fn counter_of(edition: Edition, n: usize) -> u32
    requires { n < length (guide_of edition) }
    ensures { result ≡ (node (guide_of edition) n).counter }
{
    (tag_word(edition, n) / 0x1000_0000 % 0x1000) as u32
}

// The first child that is required or one of a pair, or 0.
pub(crate) fn first_due(edition: Edition, n: usize) -> usize
    requires { n < length (guide_of edition) }
    ensures { result ≡ first_due (guide_of edition) n }
{
    (terms(edition, n) / 0x10_0000_0000_0000) as usize
}

// The next node with the same parent that is required or one of a pair, or 0.
pub(crate) fn next_due(edition: Edition, n: usize) -> usize
    requires { n < length (guide_of edition) }
    ensures { result ≡ next_due (guide_of edition) n }
{
    (terms(edition, n) / 0x1000_0000_0000 % 256) as usize
}

// How many codes the row has.
pub(crate) fn codes_count(edition: Edition, n: usize) -> usize
    requires { n < length (guide_of edition) }
    ensures { result ≡ length (node (guide_of edition) n).selector.codes }
{
    (terms(edition, n) / 0x100_0000_0000 % 16) as usize
}

// Where the codes of the row begin among all.
pub(crate) fn codes_from(edition: Edition, n: usize) -> usize
    requires { n < length (guide_of edition) }
    ensures { result ≡ length (codes_of (take n (guide_of edition))) }
{
    (terms(edition, n) / 0x1_0000_0000 % 256) as usize
}

// The parent.
pub(crate) fn parent_of(edition: Edition, n: usize) -> usize
    requires { n < length (guide_of edition) }
    ensures { result ≡ (node (guide_of edition) n).parent }
{
    (terms(edition, n) / 0x10_0000 % 0x1000) as usize
}

// The limit in the parent.
pub(crate) fn limit_of(edition: Edition, n: usize) -> u32
    requires { n < length (guide_of edition) }
    ensures { result ≡ (node (guide_of edition) n).limit }
{
    (terms(edition, n) % 0x10_0000) as u32
}
