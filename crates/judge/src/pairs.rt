// Rows that come in pairs: the two codes of a price's interval, of which each comes once, and neither without the other.
ghost use Rattle.std.specs.Prelude.{◌≡◌};
ghost use Rattle.guide.specs.Nodes.{node, number_of, over};
ghost use Rattle.guide.specs.Pricat.{pricat20d, pricat20c};
ghost use Rattle.guide.specs.workers.Placing.{tally};
ghost use Rattle.guide.specs.Editions.{guide_of};
ghost use Rattle.guide.specs.Options.{unless_0};
ghost use Rattle.guide.specs.Reasons.{number_of_reason};
ghost use Rattle.judge.specs.workers.Searches.{wanted};

use guide::{Edition, Reason};

fn partner_20d(n: usize) -> Option<usize>
    ensures { result ≡ unless_0 (node pricat20d n).partner }
{
    match n {
        21 => Some(27), // DTM/163
        27 => Some(21), // DTM/164
        _ => None,
    }
}

fn partner_20c(n: usize) -> Option<usize>
    ensures { result ≡ unless_0 (node pricat20c n).partner }
{
    match n {
        19 => Some(25), // DTM/163
        25 => Some(19), // DTM/164
        _ => None,
    }
}

// The other row of the pair.
fn partner_of(edition: Edition, n: usize) -> Option<usize>
    ensures { result ≡ unless_0 (node (guide_of edition) n).partner }
{
    match edition {
        Edition::D => partner_20d(n),
        Edition::C => partner_20c(n),
    }
}

// Whether node m, which is required or one of a pair, must come: of a pair, where the other has come.
pub(crate) fn is_wanted(edition: Edition, counts: &[u32; 96], m: usize) -> bool
    ensures { result ≡ wanted (guide_of edition) counts.now m }
{
    match partner_of(edition, m) {
        Some(other) => counts[other] != 0,
        None => true,
    }
}

// The reason given when node n comes once more than its limit.
pub(crate) fn reason_over(edition: Edition, counts: &[u32; 96], n: usize) -> Reason
    ensures { number_of_reason result ≡ over (guide_of edition) n (tally counts.now) }
{
    match partner_of(edition, n) {
        Some(other) if counts[other] == 0 => Reason::SecondOfPair,
        Some(_) => Reason::OverLimit,
        None => Reason::OverLimit,
    }
}

// The number that a row has as a node of the guide: both rows of a pair have that of the lower.
pub fn number_of(edition: Edition, n: usize) -> usize
    ensures { result ≡ number_of (guide_of edition) n }
{
    match partner_of(edition, n) {
        Some(other) => other.min(n),
        None => n,
    }
}
