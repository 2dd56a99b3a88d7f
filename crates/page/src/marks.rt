// The components of a segment without a byte that is not allowed, found by words of eight bytes in which the usual service characters and bytes that are not
// allowed are tested at once. What is not told at once is told elsewhere.
ghost use Rattle.std.specs.Prelude.{◌≤◌, true, false, ◌≡◌, length, IfSome};
ghost use Rattle.clean.specs.Clean.{between};
ghost use Rattle.element.specs.Elements.{releases};
ghost use Rattle.element.specs.Services.{usual_services, is_mark};
ghost use Rattle.element.specs.workers.Scans.{Scanned};
ghost use Rattle.page.specs.workers.Marks.{CleanAhead};

use cut::{Delivery, Syntax};
use element::{Scan, UsualMarks, ending_of};

// The place after a component's last byte, its length with release marks removed, and the scan behind the byte that ends it.
#[derive(Clone, Copy)]
pub(crate) struct Ahead {
    pub(crate) end: usize,
    pub(crate) length: usize,
    pub(crate) scan: Scan,
}

// Whether the release character releases the next byte: it does not, where it also ends something.
fn marks(y: Syntax) -> bool
    ensures { result ≡ releases y false y.release }
{
    ending_of(y, false, y.release).is_none()
}

// Whether a byte that is released is surely allowed.
fn is_text(x: u8) -> bool
    ensures { result ≡ between 32 126 x }
{
    matches!(x, 32..=126)
}

// The component that comes next, and what is tested behind it; none, where that is not told.
pub(crate) fn clean_on(d: Delivery<'_>, scan: Scan) -> Option<Ahead>
    requires { (usual_services d.syntax ≡ true) × (scan.at ≤ length d.bytes.now) × Scanned is_mark d.bytes.now scan }
    ensures { IfSome result (CleanAhead d.entry.syntax d.entry.bytes.now scan.at) }
{
    let a = scan.at;
    let mut from = scan;
    let mut removed = 0;
    // From mark to mark: the scan says where the next turn begins.
    loop {
        let behind = from.step(&UsualMarks, d.bytes)?;
        let end = behind.at - 1;
        if d.bytes[end] != d.syntax.release {
            return Some(Ahead {
                end,
                length: end - a - removed,
                scan: behind,
            });
        }
        let released = *d.bytes.get(end + 1)?;
        if !is_text(released) {
            return None;
        }
        if !marks(d.syntax) {
            return None;
        }
        from = Scan::untested(end + 2);
        removed += 1;
    }
}
