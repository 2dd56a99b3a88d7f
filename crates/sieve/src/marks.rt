// The table of the prints that came: a cell for each value of a print's upper bits, in which a byte made of the lower ones stands, and so
// again for two more numbers made of the print. What is not marked did not come. The table in `came` differs in cell and rule: one trait over both would
// be no plainer.
ghost use Rattle.std.specs.Prelude.{◌≡◌};
ghost use Rattle.sieve.specs.workers.Marks.{cell_of, mark_of, merged_by, held_in, with_mark, marked_in, mark_in};

use crate::prints::mixed;

// The remainder changes nothing here: it is there for the laws, which take any number.
fn cell_of(f: u32) -> usize
    ensures { result ≡ cell_of f }
{
    (f / 524288 % 8192) as usize
}

fn mark_of(f: u32) -> u8
    ensures { result ≡ mark_of f }
{
    (f / 2048 % 254 + 1) as u8
}

// A cell that holds v, after the mark m.
fn merged(v: u8, m: u8) -> u8
    ensures { result ≡ merged_by v m }
{
    if v == 0 {
        return m;
    }
    if v == m {
        return m;
    }
    255
}

// Whether the cell of f may have had its mark.
fn holds(t: &[u8; 8192], f: u32) -> bool
    ensures { result ≡ held_in t.now f }
{
    let i = cell_of(f);
    let v = t[i];
    if v == 255 {
        return true;
    }
    v == mark_of(f)
}

fn hold(t: &mut [u8; 8192], f: u32)
    ensures { t.new ≡ with_mark t.old f }
{
    let i = cell_of(f);
    let v = t[i];
    t[i] = merged(v, mark_of(f));
}

// Whether the print may have come.
pub fn is_marked(t: &[u8; 8192], f: u32) -> bool
    ensures { result ≡ marked_in t.now f }
{
    if !holds(t, f) {
        return false;
    }
    let g = mixed(f, 0, 0);
    if !holds(t, g) {
        return false;
    }
    holds(t, mixed(g, 0, 0))
}

pub fn mark(t: &mut [u8; 8192], f: u32)
    ensures { t.new ≡ mark_in t.old f }
{
    hold(t, f);
    let g = mixed(f, 0, 0);
    hold(t, g);
    hold(t, mixed(g, 0, 0));
}
