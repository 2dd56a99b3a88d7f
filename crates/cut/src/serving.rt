// Which service characters may be used.
ghost use Rattle.std.specs.Prelude.{◌≡◌};
ghost use Rattle.cut.specs.Characters.{allowed_byte, may_serve, service, distinct, valid};

use crate::service::Syntax;

#[tactic(auto, using(std::proofs::lemmas::Bool::Decides::nat_tests), unfolding(crate::specs::Characters::between, crate::specs::Characters::allowed_byte))]
fn is_allowed(x: u8) -> bool
    ensures { result ≡ allowed_byte x }
{
    matches!(x, 32..=126 | 160..)
}

// An allowed byte that is no letter, digit, blank or minus.
#[tactic(auto, using(std::proofs::lemmas::Bool::Decides::nat_tests), unfolding(crate::specs::Characters::between, crate::specs::Characters::may_serve))]
fn may_serve(x: u8) -> bool
    ensures { result ≡ may_serve x }
{
    is_allowed(x) && !x.is_ascii_alphanumeric() && x != b' ' && x != b'-'
}

#[tactic(auto, using(std::proofs::lemmas::Bool::Decides::nat_tests), unfolding(crate::specs::Characters::distinct, crate::specs::Characters::has))]
fn are_distinct(y: Syntax) -> bool
    ensures { result ≡ distinct (service y) }
{
    ![y.element, y.decimal, y.release, y.terminator].contains(&y.component)
        && ![y.decimal, y.release, y.terminator].contains(&y.element)
        && ![y.release, y.terminator].contains(&y.decimal)
        && y.release != y.terminator
}

// Whether all five may be used together.
#[tactic(auto, using(std::proofs::lemmas::Bool::Decides::nat_tests), unfolding(crate::specs::Characters::all_serve, crate::specs::Characters::valid))]
pub fn may_be_used(y: Syntax) -> bool
    ensures { result ≡ valid y }
{
    may_serve(y.component)
        && may_serve(y.element)
        && may_serve(y.decimal)
        && may_serve(y.release)
        && may_serve(y.terminator)
        && are_distinct(y)
}
