//! The definitions on worked codes with functions: each clause is one, proved by computing it.

ghost use Rattle.std.specs.Prelude.{[], ◌∷◌};
ghost use Rattle.ilcode.specs.Rows.{whole};
ghost use Rattle.ilcode.specs.FunctionRows.{ComeTo, StopAt, with_half, once, twice};
ghost use Rattle.ilcode.specs.FunctionRows.{in_parentheses, called_last, given, nothing_given};
ghost use Rattle.ilcode.specs.FunctionRows.{returning, left_open, calling_itself, no_result_yet};
ghost use Rattle.ilcode.specs.FunctionRows.{chain, zeros};

/// Calls of a function: its result is the current result, and what waited in the caller waits
/// again.
fn calls()
    ensures once { ComeTo (with_half once) 9 (whole 201 ∷ whole 0 ∷ whole 0 ∷ [])
        (whole 150 ∷ whole 201 ∷ whole 100 ∷ []) }
    ensures twice { ComeTo (with_half twice) 15 (whole 201 ∷ whole 0 ∷ whole 0 ∷ [])
        (whole 100 ∷ whole 100 ∷ whole 50 ∷ []) }
    ensures in_parentheses { ComeTo (with_half in_parentheses) 11
        (whole 201 ∷ whole 0 ∷ whole 0 ∷ []) (whole 101 ∷ whole 201 ∷ whole 100 ∷ []) }
    ensures called_last { ComeTo (with_half called_last) 7 (whole 201 ∷ whole 0 ∷ whole 0 ∷ [])
        (whole 201 ∷ whole 201 ∷ whole 100 ∷ []) }
    ensures given { ComeTo (with_half given) 8 (whole 201 ∷ whole 0 ∷ whole 0 ∷ [])
        (whole 50 ∷ whole 201 ∷ whole 100 ∷ []) }
    ensures nothing_given { ComeTo (with_half nothing_given) 6
        (whole 7 ∷ whole 9 ∷ whole 0 ∷ []) (whole 4 ∷ whole 9 ∷ whole 4 ∷ []) }
{}

/// Bodies: RET goes to the body's end, nothing is left open there, a body begins with no current
/// result, and calls those before it alone.
fn bodies()
    ensures returning { ComeTo returning 6 (whole 201 ∷ whole 0 ∷ whole 0 ∷ [])
        (whole 201 ∷ whole 201 ∷ whole 201 ∷ []) }
    ensures left_open { StopAt left_open 5 5 (whole 201 ∷ whole 0 ∷ whole 0 ∷ []) }
    ensures calling_itself { StopAt calling_itself 1 1 (whole 0 ∷ whole 0 ∷ whole 0 ∷ []) }
    ensures no_result_yet { StopAt no_result_yet 3 3 (whole 9 ∷ whole 0 ∷ whole 0 ∷ []) }
{}

/// Calls that are open: eight may be, and where the innermost body ends all end that end there.
fn open_calls()
    ensures most { ComeTo (chain 7) 8 (zeros 16) (zeros 16) }
    ensures one_more { StopAt (chain 8) 1 8 (zeros 18) }
{}
