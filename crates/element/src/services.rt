// The bytes that end something or are the release character.
ghost use Rattle.std.specs.Prelude.{◌≡◌};
ghost use Rattle.bytewise.specs.Eights.{Flagged};
ghost use Rattle.element.specs.Services.{is_service};

use crate::endings::ending_of;
use bytewise::{ByteTest, alike};
use cut::Syntax;

// Their test, for the service characters that it has.
#[derive(Clone, Copy)]
pub struct Services(pub Syntax);

impl ByteTest for Services {
    ghost holds = { λ services. is_service services.0 };

    fn flags(&self, w: u64) -> u64 {
        services_in(self.0, w)
    }

    fn passes(&self, x: u8) -> bool {
        ending_of(self.0, false, x).is_some() || x == self.0.release
    }
}

// Which of eight bytes are such.
pub fn services_in(y: Syntax, w: u64) -> u64
    ensures { Flagged w (is_service y) result }
{
    alike(w, y.terminator) | alike(w, y.element) | alike(w, y.component) | alike(w, y.release)
}
