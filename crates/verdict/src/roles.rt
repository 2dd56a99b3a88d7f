// What a segment is to the rules of a message.
ghost use Rattle.std.specs.Prelude.{◌≡◌};
ghost use Rattle.verdict.specs.workers.Segments.{role_of};

use guide::Edition;

// By the tag of its node: LIN is numbered, UNT has the count and the reference of UNH, and BGM says whether positions are compared.
#[derive(Clone, Copy)]
pub enum Role {
    Lin,
    Unt,
    Unh,
    Bgm,
    Other,
}

pub(crate) fn role_of(edition: Edition, n: usize) -> Role
    ensures { result ≡ role_of edition n }
{
    match (edition, n) {
        (_, 1) => Role::Unh,
        (_, 2) => Role::Bgm,
        (Edition::D, 16 | 23) | (Edition::C, 15 | 21) => Role::Lin,
        (Edition::D, 26) | (Edition::C, 24) => Role::Unt,
        _ => Role::Other,
    }
}
