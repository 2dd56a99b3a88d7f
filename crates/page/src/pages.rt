// The first fault of a segment against its page, in one pass over its components from left to right. The pass keeps the place of the component that comes
// next, its element's number, its own, the word of its element, and the mood; and the places of two components.
ghost use Rattle.std.specs.Prelude.{◌+◌, ◌^◌, ◌≤◌, ◌<◌, ◌≡◌, length, drop};
ghost use Rattle.plain.specs.Plain.{decoded};
ghost use Rattle.guide.specs.Reasons.{fault_number, numbered};
ghost use Rattle.guide.specs.workers.Moods.{opened, absent_fault};
ghost use Rattle.page.specs.Examined.{examined_of};
ghost use Rattle.page.specs.workers.Walk.{inside, stand_in, stand_fault, MoodAfter, EndFault};
ghost use Rattle.page.specs.workers.Words.{row_in, element_in, page_in, NodeWord};

use crate::formed::{is_must, text_fault};
use crate::places::{Places, nowhere, places_on};
use crate::rows::{element_behind, row_at};
use cut::Delivery;
use element::{Ending, component_from, ending_at};
use guide::Reason;

// What is known of the element so far: that it asks for its must components; that it does not, and none of its must components was empty, or that one was;
// or that it is the tag, of which nothing is asked.
#[derive(Clone, Copy, PartialEq, Eq, Debug)]
enum Mood {
    Asking,
    Idle,
    Owing,
    Tag,
}

// The fault of the elements behind element e of the page that has a word, where none of them stands.
pub(crate) fn absent(page: usize, e: usize) -> Result<(), Reason>
    requires { NodeWord page (page_in page) }
    ensures { fault_number result ≡ absent_fault (drop e (page_in page)) }
{
    if e < page / 32768 {
        return Err(Reason::ComponentMissing);
    }
    Ok(())
}

// The mood of the element that has a word before its first component.
fn opening(word: usize) -> Mood
    ensures { stand_in result ≡ inside (opened (element_in word)) }
{
    if word / 1048576 == 1 {
        return Mood::Asking;
    }
    Mood::Idle
}

// The fault that is known where the element that has a word ends behind component c.
fn ended(word: usize, c: usize, mood: Mood) -> Result<(), Reason>
    requires { c + 1 < 2 ^ 64 }
    ensures { EndFault word c (stand_in mood) (fault_number result) }
{
    match mood {
        Mood::Asking => {
            if c + 1 < word / 32768 % 32 {
                return Err(Reason::ComponentMissing);
            }
            Ok(())
        }
        Mood::Idle | Mood::Owing | Mood::Tag => Ok(()),
    }
}

// The fault that is known at a component of n bytes.
fn known_fault(
    d: Delivery<'_>,
    a: usize,
    b: usize,
    n: usize,
    row: usize,
    mood: Mood,
) -> Result<(), Reason>
    requires { n ≡ length (decoded d.syntax a b d.bytes.now) }
    ensures { fault_number result ≡ stand_fault d.entry.syntax (stand_in mood) (row_in row) (decoded d.entry.syntax a b d.entry.bytes.now) }
{
    let asked = match mood {
        Mood::Asking => true,
        Mood::Idle => false,
        Mood::Owing => {
            if 0 < n {
                return Err(Reason::ComponentMissing);
            }
            return Ok(());
        }
        Mood::Tag => return Ok(()),
    };
    // One call, so that the compiler makes it part of the pass.
    text_fault(d, a, b, n, row, asked)
}

// The mood after a component of n bytes.
fn mood_after(n: usize, row: usize, mood: Mood) -> Mood
    ensures { MoodAfter n (stand_in mood) (row_in row) (stand_in result) }
{
    match mood {
        Mood::Idle => {
            if 0 < n {
                return Mood::Asking;
            }
            if is_must(row) {
                return Mood::Owing;
            }
            Mood::Idle
        }
        Mood::Asking | Mood::Owing | Mood::Tag => mood,
    }
}

// The pass over a part that has a byte, against the page that has a word. Each component says where the next turn begins, so no `for` counts it.
pub(crate) fn pass(
    d: Delivery<'_>,
    start: usize,
    limit: usize,
    page: usize,
) -> Result<Places, Reason>
    requires { (start < limit) × (limit ≤ length d.bytes.now) × NodeWord page (page_in page) }
    ensures { numbered result ≡ examined_of d.entry.syntax (page_in page) d.entry.bytes.now start limit }
{
    let mut a = start;
    let mut places = nowhere(start);
    let mut e = 0;
    let mut c = 0;
    let mut word = 0;
    let mut mood = Mood::Tag;
    loop {
        let p = component_from(d, a, limit);
        let row = row_at(word, c);
        known_fault(d, a, p.end, p.length, row, mood)?;
        places = places_on(e, c, a, p.end, places);
        mood = mood_after(p.length, row, mood);
        a = p.end + 1;
        match ending_at(d, p.end, limit) {
            Ending::Component => c += 1,
            Ending::Element => {
                ended(word, c, mood)?;
                word = element_behind(page, e);
                e += 1;
                c = 0;
                mood = opening(word);
            }
            Ending::Segment => {
                ended(word, c, mood)?;
                absent(page, e)?;
                return Ok(places);
            }
        }
    }
}
