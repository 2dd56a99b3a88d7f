// Whether a node takes a segment of its tag, by code.
ghost use Rattle.std.specs.Prelude.{◌<◌, ◌≡◌, map, length};
ghost use Rattle.guide.specs.Nodes.{node};
ghost use Rattle.guide.specs.Editions.{guide_of};
ghost use Rattle.judge.specs.workers.Words.{packed, holds, picks};

use crate::code_words::code;
use crate::rows::{codes_count, codes_from};
use guide::Edition;

// Whether the number is that of one of the node's codes.
fn has_code(edition: Edition, n: usize, key: u64) -> bool
    requires { n < length (guide_of edition) }
    ensures { result ≡ holds key (map packed (node (guide_of edition) n).selector.codes) }
{
    let from = codes_from(edition, n);
    for j in from..from + codes_count(edition, n) {
        if code(edition, j) == key {
            return true;
        }
    }
    false
}

// Whether the number is that of one of the node's codes, or the node is found by its tag alone.
pub(crate) fn is_chosen(edition: Edition, n: usize, key: u64) -> bool
    requires { n < length (guide_of edition) }
    ensures { result ≡ picks (map packed (node (guide_of edition) n).selector.codes) key }
{
    if codes_count(edition, n) == 0 {
        return true;
    }
    has_code(edition, n, key)
}
