// Looks for the node that is missing when another comes: 14's question.
ghost use Rattle.std.specs.Prelude.{suc, ◌<◌, ◌≡◌, true, length};
ghost use Rattle.guide.specs.workers.Placing.{first_node, levels, lacking, missing};
ghost use Rattle.guide.specs.Editions.{guide_of};
ghost use Rattle.guide.specs.Options.{unless_0};
ghost use Rattle.judge.specs.workers.Sets.{some_level, follows_in};
ghost use Rattle.judge.specs.workers.Searches.{missed, lacks_due};

use crate::pairs::is_wanted;
use crate::rows::{counter_of, first_due, next_due, parent_of};
use crate::sets::{NodeSet, due, preceding};
use guide::Edition;

// Whether node m, which is required or one of a pair, has not come though it must.
fn is_missed(edition: Edition, counts: &[u32; 96], m: usize) -> bool
    requires { m < length (guide_of edition) }
    ensures { result ≡ missed (guide_of edition) counts.now m }
{
    if counts[m] != 0 {
        return false;
    }
    is_wanted(edition, counts, m)
}

// Whether the instance p lacks its child m, which is required or one of a pair, when n comes.
fn lacks(edition: Edition, counts: &[u32; 96], n: usize, p: usize, m: usize) -> bool
    requires { (n < length (guide_of edition)) × (m < length (guide_of edition)) }
    ensures { result ≡ lacks_due (guide_of edition) counts.now n p m }
{
    if !is_missed(edition, counts, m) {
        return false;
    }
    if p != parent_of(edition, n) {
        return true;
    }
    counter_of(edition, m) < counter_of(edition, n)
}

// The lowest node that the instance p lacks when n comes. The links stay numbers, with 0 at the end, as the packed words have them.
fn lacking_in(edition: Edition, counts: &[u32; 96], n: usize, p: usize) -> Option<usize>
    requires { (n < length (guide_of edition)) × (p < length (guide_of edition)) }
    ensures { result ≡ unless_0 (first_node (guide_of edition) (lacking (guide_of edition) counts.now n p)) }
{
    let mut m = first_due(edition, p);
    while m != 0 {
        if lacks(edition, counts, n, p, m) {
            return Some(m);
        }
        m = next_due(edition, m);
    }
    None
}

// The lowest missing node, looked for from the innermost open instance outward level by level, up to the one that takes n. The level
// is the open instance's node: a parent has a lower number, so it falls. The first gap ends the search, so the call
// for the parent stands last, which the compiler can turn into a jump.
fn missing_for(edition: Edition, counts: &[u32; 96], n: usize, level: usize) -> Option<usize>
    requires { (n < length (guide_of edition)) × (level < length (guide_of edition)) }
    ensures { result ≡ unless_0 (missing (guide_of edition) counts.now n (levels (guide_of edition) (suc level) level 0)) }
{
    if let Some(gap) = lacking_in(edition, counts, n, level) {
        return Some(gap);
    }
    if level == parent_of(edition, n) || level == 0 {
        return None;
    }
    missing_for(edition, counts, n, parent_of(edition, level))
}

// The lowest missing node when n comes after the node `last`. The levels are walked only where one of the nodes that n must come behind is missed, so
// once in a message at most.
pub(crate) fn missing_node(
    edition: Edition,
    counts: &[u32; 96],
    n: usize,
    last: usize,
) -> Option<usize>
    requires n_in_bounds { (n < length (guide_of edition)) × (last < length (guide_of edition)) }
    requires last_value { some_level (follows_in (guide_of edition) n) (levels (guide_of edition) (suc last) last 0) ≡ true }
    ensures { result ≡ unless_0 (missing (guide_of edition) counts.now n (levels (guide_of edition) (suc last) last 0)) }
{
    for m in NodeSet(due(edition, last) & preceding(edition, n)) {
        if is_missed(edition, counts, m) {
            return missing_for(edition, counts, n, last);
        }
    }
    None
}
