// The service characters that almost every delivery has.
ghost use Rattle.std.specs.Prelude.{◌≡◌};
ghost use Rattle.element.specs.Services.{usual_services};

use cut::Syntax;

// Whether the four service characters that end something or release are the usual ones. Behind these tests the compiler knows them, so that what is made of
// them for eight bytes at once is a constant.
pub fn has_usual_services(y: Syntax) -> bool
    ensures { result ≡ usual_services y }
{
    if y.terminator != 39 {
        return false;
    }
    if y.element != 43 {
        return false;
    }
    if y.component != 58 {
        return false;
    }
    y.release == 63
}
