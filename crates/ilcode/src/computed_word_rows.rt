//! Worked words, by the rows of the table: each clause is proved by computing it.

ghost use Rattle.std.specs.Prelude.{true, false};
ghost use Rattle.iltypes.specs.declared.condition.Condition.TheVariants as conditions;
ghost use Rattle.iltypes.specs.declared.function.Function.TheVariants.{Not, Abs, Convert};
ghost use Rattle.iltypes.specs.declared.function.IntegerType.TheVariants.{Sint, Uint};
ghost use Rattle.iltypes.specs.declared.operator.Operator.TheVariants as operators;
ghost use Rattle.ilcode.specs.declared.word.WordOperand.TheVariants as operands;
ghost use Rattle.ilcode.specs.declared.word.Target.TheVariants as variables;
ghost use Rattle.ilcode.specs.declared.word.Word.TheVariants as words;
ghost use Rattle.ilcode.specs.WordRows.{IsNoWord, Spells};

/// LD, ST and operators, by the kind of what they name.
fn operands()
    ensures ld { Spells (words.Load false (operands.Slot 0)) 64 }
    ensures ld_constant { Spells (words.Load false (operands.Constant 0)) 128 }
    ensures ld_port { Spells (words.Load false (operands.Port 3 2)) 9152 }
    ensures ldn { Spells (words.Load true (operands.Slot 4095)) 1048385 }
    ensures st { Spells (words.Store false (variables.Slot 1)) 322 }
    ensures stn { Spells (words.Store true (variables.Port 15 255)) 1048515 }
    ensures s { Spells (words.Set (variables.Slot 2)) 580 }
    ensures r { Spells (words.Reset (variables.Port 0 1)) 4293 }
    ensures andn { Spells (words.Apply (operators.And true) (operands.Constant 0)) 135 }
    ensures add { Spells (words.Apply operators.Add (operands.Constant 0)) 141 }
    ensures div { Spells (words.Apply operators.Div (operands.Constant 2)) 656 }
    ensures lt { Spells (words.Apply operators.Lt (operands.Slot 0)) 87 }
    ensures min { Spells (words.Apply operators.Min (operands.Constant 1)) 408 }
{}

/// Functions, parentheses, calls and jumps; a port is its instance times 16 plus its number, and a
/// target of 4,096 words and more has its high part in b.
fn others()
    ensures not { Spells (words.Transform Not) 12 }
    ensures abs { Spells (words.Transform Abs) 26 }
    ensures to_sint { Spells (words.Transform (Convert Sint)) 27 }
    ensures to_uint { Spells (words.Transform (Convert Uint)) 1051 }
    ensures pass { Spells (words.Pass 1 2 (operands.Slot 3)) 34603871 }
    ensures pass_port { Spells (words.Pass 2 1 (operands.Port 1 2)) 18883039 }
    ensures cal { Spells (words.Call 255) 65312 }
    ensures close { Spells words.Close 33 }
    ensures open { Spells (words.Open operators.Add) 3362 }
    ensures jmp { Spells (words.Jump conditions.Always 2) 540 }
    ensures jmpc { Spells (words.Jump conditions.IfTrue 4097) 1048861 }
    ensures jmpcn { Spells (words.Jump conditions.IfFalse 65536) 16777246 }
    ensures give { Spells (words.Give (operands.Constant 1) 2) 2097571 }
    ensures give_port { Spells (words.Give (operands.Port 1 2) 4095) 4293927395 }
    ensures call { Spells (words.Invoke 0) 36 }
    ensures last { Spells (words.Invoke 4095) 1048356 }
{}

/// Bits of no word: an operation past the last, a kind that the operation does not take, numbers
/// that are not 0 where they must be, a type past the last, and MIN before a parenthesis.
fn no_words()
    ensures operation { IsNoWord 37 }
    ensures nothing_given { IsNoWord 35 }
    ensures high_number_of_call { IsNoWord 1048612 }
    ensures no_operand { IsNoWord 0 }
    ensures stored_constant { IsNoWord 130 }
    ensures operand_of_not { IsNoWord 76 }
    ensures operand_of_jump { IsNoWord 92 }
    ensures number_of_close { IsNoWord 289 }
    ensures high_number_of_ld { IsNoWord 1048640 }
    ensures type_past_the_last { IsNoWord 1563 }
    ensures deferred_min { IsNoWord 6178 }
    ensures deferred_not { IsNoWord 3106 }
{}
