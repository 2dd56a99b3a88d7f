// How often each node has come in the open instance of its parent.
ghost use Rattle.std.specs.Prelude.{◌<◌, ◌^◌, suc, ◌≡◌, length, get_or};
ghost use Rattle.guide.specs.workers.Placing.{recounted};
ghost use Rattle.guide.specs.Editions.{guide_of};
ghost use Rattle.judge.specs.workers.Searches.{cleared};

use crate::sets::{NodeSet, children};
use guide::Edition;

// None of these nodes has come yet.
fn clear(nodes: u32, counts: &mut [u32; 96])
    ensures { counts.new ≡ cleared nodes 0 counts.old }
{
    for m in NodeSet(nodes) {
        counts[m] = 0;
    }
}

// An instance of n begins, in which none of its children has come yet.
pub(crate) fn enter(edition: Edition, n: usize, counts: &mut [u32; 96])
    requires n_nonzero { (0 < n) × (n < length (guide_of edition)) }
    requires n_bound { suc (get_or counts.old n 0) < 2 ^ 32 }
    ensures { counts.new ≡ recounted (guide_of edition) n counts.old }
{
    counts[n] += 1;
    clear(children(edition, n), counts);
}
