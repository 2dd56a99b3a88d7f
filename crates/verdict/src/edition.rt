// Which guide judges a message: the edition that its UNH names.
ghost use Rattle.std.specs.Prelude.{◌≡◌};
ghost use Rattle.messages.specs.Held.{held};
ghost use Rattle.cut.specs.Segments.{segments_at};
ghost use Rattle.verdict.specs.Named.{edition_of};

use cut::{Delivery, past_breaks};
use element::component_at;
use guide::Edition;
use plain::is_code;

// The edition that the first segment from `start` on names in DE0057: its end is not looked for, since what stands from its first byte on is what stands
// in it.
pub(crate) fn edition_at(d: Delivery<'_>, start: usize) -> Edition
    ensures { result ≡ edition_of d.entry.syntax (held (segments_at d.entry.syntax d.entry.bytes.now start)) }
{
    let s = component_at(d, past_breaks(d, start), d.bytes.len(), 2, 4);
    if is_code(d, s.start, s.end, b"2.0c") {
        Edition::C
    } else {
        Edition::D
    }
}
