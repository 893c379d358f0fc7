//! Names that may stand for one another.

ghost use Rattle.std.specs.Prelude.{◌≡◌, false};

use explaincures::is_near;

/// `another_lamp_is_near`: a name was near to one that differs in a digit, and so shown in its
/// place.
pub fn name_with_another_digit_is_not_near() -> bool
    ensures { result ≡ false }
{
    is_near(b"lamp2", b"lamp3")
}
