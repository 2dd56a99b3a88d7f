// The faults of one segment behind those of its components: 21 and 22.
ghost use Rattle.std.specs.Prelude.{suc, ◌<◌, ◌^◌, ◌≡◌, false, []};
ghost use Rattle.bytewise.specs.Bytes.{part};
ghost use Rattle.value.specs.Digits.{count_of};
ghost use Rattle.guide.specs.Content.{text};
ghost use Rattle.guide.specs.Reasons.{fault_number};
ghost use Rattle.guide.specs.workers.Judging.{is};
ghost use Rattle.page.specs.Reading.{segment_in};
ghost use Rattle.verdict.specs.workers.Segments.{spanned, noted, end_fault_in, rule_by};

use crate::kept::Kept;
use crate::roles::Role;
use cut::Delivery;
use element::{Span, component_at};
use guide::{Edition, Reason};
use page::Reading;
use plain::same_plain;
use value::count_of;

// Whether the component `first` is the count n.
fn is_numbered(d: Delivery<'_>, first: Span, n: usize) -> bool
    ensures { result ≡ is n (count_of (spanned d.entry.syntax first d.entry.bytes.now)) }
{
    count_of(d, first.start, first.end) == Some(n as u64)
}

// 21 of UNT, which is segment i from `start` on: its count and its reference are right, or not.
fn end_fault(
    edition: Edition,
    d: Delivery<'_>,
    start: usize,
    read: Reading,
    i: usize,
    reference: Span,
) -> Result<(), Reason>
    requires { spanned d.syntax read.first d.bytes.now ≡ text d.syntax (part start read.end d.bytes.now) 1 0 }
    ensures { fault_number result ≡ end_fault_in edition d.entry.syntax d.entry.bytes.now start read.end i reference }
{
    if !is_numbered(d, read.first, i) {
        return Err(Reason::WrongEnd);
    }
    let span = component_at(d, start, read.end, 2, 0);
    if !same_plain(d, span.start, span.end, reference.start, reference.end) {
        return Err(Reason::WrongEnd);
    }
    Ok(())
}

// 21 or 22 of segment i, which stands from `start` on and was read without a fault; none, if it is neither UNT nor LIN.
pub(crate) fn rule_fault(
    edition: Edition,
    d: Delivery<'_>,
    start: usize,
    read: Reading,
    i: usize,
    role: Role,
    kept: Kept,
) -> Result<(), Reason>
    requires positions_bound { suc kept.positions < 2 ^ 64 }
    requires d_value { spanned d.syntax read.first d.bytes.now ≡ text d.syntax (part start read.end d.bytes.now) 1 0 }
    ensures { fault_number result
        ≡ rule_by edition d.entry.syntax i (noted d.entry.syntax kept [] d.entry.bytes.now) role (segment_in start read.end false d.entry.bytes.now) }
{
    match role {
        Role::Unt => end_fault(edition, d, start, read, i, kept.reference),
        Role::Lin => {
            if !is_numbered(d, read.first, kept.positions + 1) {
                return Err(Reason::WrongLine);
            }
            Ok(())
        }
        Role::Unh | Role::Bgm | Role::Other => Ok(()),
    }
}
