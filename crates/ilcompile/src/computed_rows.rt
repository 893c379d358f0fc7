//! The layout of worked programs: each clause is one, proved by computing it.

ghost use Rattle.std.specs.Prelude.{[], ◌∷◌};
ghost use Rattle.ilcompile.specs.Rows.{AreLaidOut, truth, whole};
ghost use Rattle.ilcompile.specs.Rows.{difference, words_of_difference};
ghost use Rattle.ilcompile.specs.Rows.{limited, words_of_limited};
ghost use Rattle.ilcompile.specs.Rows.{in_turn, words_in_turn};
ghost use Rattle.ilcompile.specs.Rows.{two_jumps, words_of_two_jumps};
ghost use Rattle.ilcompile.specs.Rows.{labels_alone, words_of_labels_alone};
ghost use Rattle.ilcompile.specs.Rows.{over_parentheses, words_over_parentheses};
ghost use Rattle.ilcompile.specs.Rows.{returning, words_returning};
ghost use Rattle.ilcompile.specs.Rows.{astray, words_astray};
ghost use Rattle.ilcompile.specs.Rows.{calling, words_calling};
ghost use Rattle.ilcompile.specs.Rows.{calling_if, words_calling_if};
ghost use Rattle.ilcompile.specs.Rows.{over_call, words_over_call};
ghost use Rattle.ilcompile.specs.Rows.{AveragingIsLaidOut};

/// Words in parentheses stand on lines of their own; a program without lines has a start; equal
/// constants have one number, and 1 is not TRUE.
fn layouts()
    ensures parentheses { AreLaidOut (difference ∷ []) (whole 3 ∷ whole 2 ∷ []) (0 ∷ [])
        words_of_difference (3 ∷ 4 ∷ 4 ∷ 5 ∷ 6 ∷ 7 ∷ []) }
    ensures limit { AreLaidOut (limited ∷ []) (whole 0 ∷ whole 254 ∷ []) (0 ∷ [])
        words_of_limited (3 ∷ 4 ∷ 4 ∷ 5 ∷ []) }
    ensures in_turn { AreLaidOut in_turn (truth ∷ whole 1 ∷ []) (0 ∷ 2 ∷ 2 ∷ [])
        words_in_turn (3 ∷ 4 ∷ 9 ∷ 10 ∷ 11 ∷ 12 ∷ []) }
{}

/// Two jumps to one label; labels alone on their lines, one after another and at the end; a jump
/// over parentheses; returns, in the first program and in the second; and jumps that lead nowhere,
/// since their label is none of the lines behind them, in their program.
fn jumps()
    ensures two_jumps { AreLaidOut (two_jumps ∷ []) (truth ∷ []) (0 ∷ [])
        words_of_two_jumps (3 ∷ 4 ∷ 5 ∷ 6 ∷ 7 ∷ 8 ∷ []) }
    ensures labels_alone { AreLaidOut (labels_alone ∷ []) [] (0 ∷ [])
        words_of_labels_alone (3 ∷ 4 ∷ 7 ∷ 8 ∷ []) }
    ensures over_parentheses { AreLaidOut (over_parentheses ∷ []) (whole 2 ∷ []) (0 ∷ [])
        words_over_parentheses (3 ∷ 4 ∷ 5 ∷ 5 ∷ 6 ∷ 7 ∷ 8 ∷ []) }
    ensures returning { AreLaidOut returning [] (0 ∷ 3 ∷ [])
        words_returning (3 ∷ 4 ∷ 5 ∷ 6 ∷ 7 ∷ 8 ∷ 9 ∷ 10 ∷ 11 ∷ 12 ∷ []) }
    ensures astray { AreLaidOut astray [] (0 ∷ 3 ∷ [])
        words_astray (3 ∷ 4 ∷ 5 ∷ 6 ∷ 7 ∷ 8 ∷ []) }
{}

/// A call after its arguments, in their order, and ports as operands; calls that a condition passes
/// over, to a label, to the next program and to the end; and a jump over a call.
fn calls()
    ensures calling { AreLaidOut (calling ∷ []) (whole 500 ∷ []) (0 ∷ [])
        words_calling (3 ∷ 4 ∷ 4 ∷ 4 ∷ 5 ∷ 6 ∷ 7 ∷ []) }
    ensures calling_if { AreLaidOut calling_if (whole 20 ∷ truth ∷ []) (0 ∷ 7 ∷ [])
        words_calling_if (3 ∷ 4 ∷ 4 ∷ 4 ∷ 5 ∷ 6 ∷ 6 ∷ 7 ∷ 8 ∷ 8 ∷ 8 ∷ 8 ∷ []) }
    ensures over_call { AreLaidOut (over_call ∷ []) (whole 7 ∷ []) (0 ∷ [])
        words_over_call (3 ∷ 4 ∷ 5 ∷ 5 ∷ 5 ∷ 5 ∷ 6 ∷ []) }
{}

/// A task has the functions that it uses, behind its program: one that it calls, and one that this
/// one calls, but not the one between them.
fn functions()
    ensures { AveragingIsLaidOut }
{}
