//! Lines under other names.

ghost use Rattle.ilsource.specs.Renaming.{PassesAreKept, ScansAreKept};
ghost use Rattle.ilsource.specs.Renaming.{OperandsAreKept, SizesAreKept};
ghost use Rattle.ilsource.specs.Renaming.{PiecesAreKept, UsesAreKept};
ghost use Rattle.ilsource.specs.Renaming.{BodiesAreKept, FunctionsAreKept, NumbersAreKept};

/// Lines mean the same under other names: what passing and scanning renamed lines leaves is what
/// the lines leave, seen with the new names. All that is asked of the names is that each operand,
/// store and call does the same under its new name, and each function gives the same, and of the
/// labels that none gets the new name of another.
pub fn renaming_keeps_the_meaning<N: Drop, M: Drop, L: Drop, K: Drop, S: Drop, T: Drop>()
    ensures passes { PassesAreKept N M L K S T }
    ensures scans { ScansAreKept N M L K S T }
    ensures operands { OperandsAreKept N M S T }
    ensures sizes { SizesAreKept N M L K }
    ensures pieces { PiecesAreKept N M }
    ensures uses { UsesAreKept N M L K }
{}

/// Functions give the same under other names: one whose body is renamed, where those before it do;
/// and so, from the first on, all.
pub fn renaming_keeps_what_functions_give<N: Drop, M: Drop, L: Drop, K: Drop, F: Drop, G: Drop>()
    ensures bodies { BodiesAreKept N M L K }
    ensures functions { FunctionsAreKept F G }
    ensures numbers { NumbersAreKept }
{}
