// The reader's work, over the by-value cursor: what a step answers from a place, and where the reader stands after it.
ghost use Rattle.std.specs.Prelude.{◌≡◌};
ghost use Rattle.held.specs.Reading.{next_from, place_after};

use cut::{Cursor, Cut, Syntax, characters};

#[tactic(auto, unfolding(crate::specs::Reading::next_from))]
pub(crate) fn next_from(y: Syntax, d: &[u8], at: usize) -> Option<Cut>
    ensures { result ≡ next_from y d.now at }
{
    let cursor = Cursor {
        syntax: characters(y, d),
        at,
    };
    cursor.step(d).map(|(found, _)| found)
}

// At none the place stays.
#[tactic(auto, unfolding(crate::specs::Reading::place_after))]
pub(crate) fn place_after(found: Option<Cut>, at: usize) -> usize
    ensures { result ≡ place_after found at }
{
    found.map_or(at, |found| found.end)
}
