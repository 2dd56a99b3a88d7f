// The bytes of a segment that pass a test, one after the other, with words of eight bytes tested at once: what a word's test found behind one of them is kept
// for the next one.
ghost use Rattle.std.specs.Prelude.{◌≡◌, IfSome};
ghost use Rattle.element.specs.workers.Scans.{Scanned, Sought, fresh};

use bytewise::{ByteTest, eight_at, first_of};

// A place, the place behind the last word that was tested, and the flags of those of this word's bytes that pass and are not before the place.
#[derive(Clone, Copy, PartialEq, Eq, Debug)]
pub struct Scan {
    pub at: usize,
    pub next: usize,
    pub left: u64,
}

impl Scan {
    // Nothing is tested from the place `at` on.
    pub fn untested(at: usize) -> Scan
        ensures { result ≡ fresh at }
    {
        Scan {
            at,
            next: at,
            left: 0,
        }
    }

    // The scan behind the next byte that passes, if a word of eight bytes holds it. The sum does not wrap in a scan that was made here, but a scan is a value
    // that anyone can make.
    pub fn step<T: ByteTest>(self, test: &T, d: &[u8]) -> Option<Scan>
        ensures { Scanned (T.holds test.now) d.now self → IfSome result (Sought (T.holds test.now) d.now self.at) }
    {
        let last = d.len().checked_sub(8)?;
        let mut n = self.next;
        let mut m = self.left;
        // From word to word, up to the first that has a flag.
        while m == 0 {
            if last < n {
                return None;
            }
            m = test.flags(eight_at(d, n));
            n += 8;
        }
        Some(Scan {
            at: n.wrapping_add(first_of(m)).wrapping_sub(7),
            next: n,
            left: m & (m - 1),
        })
    }
}
