//! The modifier N of an operator (IEC 61131-3, 3.2.2).

ghost use Rattle.std.specs.Prelude.{◌≡◌};
ghost use Rattle.iltypes.specs.Modifiers.{opposite_if};

/// The opposite of a truth value under the modifier N (IEC 61131-3, 3.2.2), and else the value
/// itself.
pub fn opposite_if(negated: bool, truth: bool) -> bool
    ensures { result ≡ opposite_if negated truth }
{
    negated ^ truth
}
