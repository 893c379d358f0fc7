//! The definitions on worked programs: each clause is one, proved by computing it.

ghost use Rattle.std.specs.Prelude.{[], ◌∷◌, true, false};
ghost use Rattle.iltypes.specs.declared.value.Value.TheVariants.{Bool as truth};
ghost use Rattle.iltypes.specs.declared.condition.Condition.TheVariants.{Always, IfTrue};
ghost use Rattle.iltypes.specs.declared.condition.Condition.TheVariants.{IfFalse};
ghost use Rattle.ilsource.specs.Rows.{Ends, IsStuck, EndInTurn, AreStuck, whole, before_call};
ghost use Rattle.ilsource.specs.Rows.{sum, sum_unbounded, guarded};
ghost use Rattle.ilsource.specs.declared.operand.Operand.TheVariants.{Name};
ghost use Rattle.ilsource.specs.Rows.{Places, Uses, LabelIsEmpty};
ghost use Rattle.ilsource.specs.Rows.{difference, five_to_block, limit, number};
ghost use Rattle.ilsource.specs.Uses.{read_at, use_at};
ghost use Rattle.ilsource.specs.declared.uses.Purpose.TheVariants as purposes;
ghost use Rattle.ilsource.specs.Rows.{backward, nested, limited, sets, returning};
ghost use Rattle.ilsource.specs.Rows.{call, call_and_store, ld, st};
ghost use Rattle.ilsource.specs.FunctionRows.{Gives, GivesNothing};
ghost use Rattle.ilsource.specs.FunctionRows.{half, quarter, counted, twice, clipped, resultless};
ghost use Rattle.ilsource.specs.FunctionRows.{difference as minus, nested as in_parentheses};
ghost use Rattle.ilsource.specs.declared.instruction.Instruction.TheVariants.{Invoke};

/// Results, stores outside a type and uses of no result.
fn sums()
    ensures bounded { Ends sum (whole 250 ∷ []) (whole 254 ∷ []) }
    ensures outside { IsStuck sum_unbounded (whole 250 ∷ []) }
    ensures no_result { IsStuck (st 0 ∷ []) (whole 250 ∷ []) }
    ensures limited { Ends limited (whole 0 ∷ []) (whole 3 ∷ []) }
    ensures nested { Ends nested (whole 9 ∷ whole 5 ∷ whole 2 ∷ [])
        (whole 6 ∷ whole 5 ∷ whole 2 ∷ []) }
{}

/// Jumps and returns: a jump over a division by 0, one back, and the end of a program.
fn ways()
    ensures jumped { Ends guarded (whole 0 ∷ whole 9 ∷ []) (whole 0 ∷ whole 9 ∷ []) }
    ensures passed { Ends guarded (whole 4 ∷ whole 9 ∷ []) (whole 4 ∷ whole 25 ∷ []) }
    ensures back { IsStuck backward (whole 0 ∷ []) }
    ensures returned { Ends returning (truth true ∷ []) (truth true ∷ []) }
    ensures not_returned { Ends returning (truth false ∷ []) (truth true ∷ []) }
    ensures in_turn { EndInTurn (returning ∷ returning ∷ []) (truth false ∷ []) (truth true ∷ []) }
    ensures anew { AreStuck ((ld 0 ∷ []) ∷ (st 0 ∷ []) ∷ []) (truth false ∷ []) }
{}

/// S, R and STN, and calls: one that is not carried out keeps the result, the others leave none.
fn stores()
    ensures sets { Ends sets (truth true ∷ truth false ∷ truth true ∷ [])
        (truth false ∷ truth true ∷ truth false ∷ []) }
    ensures unset { Ends sets (truth false ∷ truth false ∷ truth true ∷ [])
        (truth true ∷ truth false ∷ truth true ∷ []) }
    ensures skipped { Ends (call_and_store IfFalse) (before_call false) (before_call true) }
    ensures called { Ends (call IfTrue) (before_call false)
        (truth true ∷ truth true ∷ whole 5 ∷ truth false ∷ []) }
    ensures no_result { IsStuck (call_and_store IfTrue) (before_call false) }
    ensures always { IsStuck (call_and_store Always) (before_call false) }
{}

/// What functions give: nothing on arguments outside their inputs' types, on too few or too many,
/// and without a current result; a function sees those above it alone.
fn functions()
    ensures gives { Gives (half ∷ []) 0 (whole 201 ∷ []) (whole 100) }
    ensures outside { GivesNothing (half ∷ []) 0 (whole 255 ∷ []) }
    ensures of_another_type { GivesNothing (half ∷ []) 0 (truth true ∷ []) }
    ensures too_many { GivesNothing (half ∷ []) 0 (whole 2 ∷ whole 3 ∷ []) }
    ensures too_few { GivesNothing (half ∷ []) 0 [] }
    ensures no_such { GivesNothing (half ∷ []) 1 (whole 2 ∷ []) }
    ensures above { Gives (half ∷ quarter 0 ∷ []) 1 (whole 201 ∷ []) (whole 50) }
    ensures itself { GivesNothing (quarter 0 ∷ half ∷ []) 0 (whole 201 ∷ []) }
    ensures below { GivesNothing (quarter 1 ∷ half ∷ []) 0 (whole 201 ∷ []) }
    ensures in_order { Gives (minus ∷ []) 0 (whole 9 ∷ whole 5 ∷ []) (whole 4) }
    ensures in_parentheses { Gives (minus ∷ in_parentheses ∷ []) 1 (whole 9 ∷ []) (whole 3) }
    ensures no_result { GivesNothing (half ∷ resultless ∷ []) 1 (whole 9 ∷ []) }
{}

/// Results and VAR begin anew at each call, and RET ends it.
fn calls()
    ensures anew { Gives (counted ∷ twice ∷ []) 1 (whole 3 ∷ []) (whole 8) }
    ensures returned { Gives (clipped ∷ []) 0 (whole 101 ∷ []) (whole 7) }
    ensures not_returned { Gives (clipped ∷ []) 0 (whole 100 ∷ []) (whole 100) }
{}

/// The places of words, and what is used, of instructions at 20.
fn places_and_uses()
    ensures nested { Places difference (20 ∷ 20 ∷ 28 ∷ 34 ∷ []) }
    ensures limit { Places limit (20 ∷ 20 ∷ []) }
    ensures call { Places (five_to_block Always) (20 ∷ 20 ∷ []) }
    ensures conditional_call { Places (five_to_block IfFalse) (20 ∷ 20 ∷ 20 ∷ []) }
    ensures function { Places (Invoke 1 (number 5 ∷ [])) (20 ∷ 20 ∷ 20 ∷ []) }
    ensures uses_in_parentheses { Uses difference (read_at 20 (Name 1) ∷ read_at 28 (Name 2) ∷ []) }
    ensures uses_of_limit { Uses limit (read_at 20 (number 3) ∷ read_at 20 (Name 1) ∷ []) }
    ensures uses_of_call { Uses (five_to_block IfTrue)
        (use_at 20 purposes.Call (Name 1) ∷ use_at 20 purposes.Pass (Name 2)
        ∷ read_at 20 (number 5) ∷ []) }
    ensures uses_of_function { Uses (Invoke 1 (number 5 ∷ []))
        (use_at 20 purposes.Invoke (Name 1) ∷ read_at 20 (number 5) ∷ []) }
    ensures label { LabelIsEmpty }
{}
