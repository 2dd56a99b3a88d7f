// Where the two components stand that the rules of a message ask for.
ghost use Rattle.std.specs.Prelude.{◌≡◌};
ghost use Rattle.page.specs.Reading.{empty_at};
ghost use Rattle.page.specs.workers.Places.{places_on};

use element::Span;

// The first component behind the tag, and the first of element 3.
#[derive(Clone, Copy, PartialEq, Eq, Debug)]
pub(crate) struct Places {
    pub(crate) first: Span,
    pub(crate) third: Span,
}

// None of the two stands in the segment that begins at `start`.
pub(crate) fn nowhere(start: usize) -> Places
    ensures { result ≡ record { first = empty_at start; third = empty_at start } }
{
    Places {
        first: Span { start, end: start },
        third: Span { start, end: start },
    }
}

// The places once component c of element e is known, which stands from a up to b.
pub(crate) fn places_on(e: usize, c: usize, a: usize, b: usize, places: Places) -> Places
    ensures { result ≡ places_on e c (record { start = a; end = b }) places }
{
    if c != 0 {
        return places;
    }
    if e == 1 {
        let third = places.third;
        return Places {
            first: Span { start: a, end: b },
            third,
        };
    }
    if e == 3 {
        let first = places.first;
        return Places {
            first,
            third: Span { start: a, end: b },
        };
    }
    places
}
