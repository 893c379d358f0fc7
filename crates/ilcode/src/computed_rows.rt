//! The definitions on worked codes: each clause is one, proved by computing it.

ghost use Rattle.std.specs.Prelude.{[], ◌∷◌, true, false, Some, None};
ghost use Rattle.iltypes.specs.declared.operator.Operator.TheVariants.{Sub};
ghost use Rattle.ilcode.specs.declared.word.Word.TheVariants.{Open, Close};
ghost use Rattle.iltypes.specs.declared.value.Value.TheVariants.{Bool as truth};
ghost use Rattle.ilcode.specs.Rows.{Come, ComeIn, AreStuck, AreStuckAt, store_of, whole};
ghost use Rattle.ilcode.specs.Rows.{ld, ld_a, ld_b, ld_d, st_a, st_d, stn_d};
ghost use Rattle.ilcode.specs.Rows.{deferred, quotient, converted, nested, set, reset};
ghost use Rattle.ilcode.specs.Rows.{jump, jump_if, jump_unless, returning, jump_in_parentheses};
ghost use Rattle.ilcode.specs.declared.word.Word.TheVariants.{Jump};
ghost use Rattle.iltypes.specs.declared.condition.Condition.TheVariants.{IfTrue};

/// Values: what has one, and what has none.
fn values()
    ensures quotient { Come [] quotient (store_of 9 2 0 true) (Some (whole 4))
        (store_of 9 2 0 true) }
    ensures by_zero { AreStuck [] quotient (store_of 9 0 0 true) }
    ensures converted { Come [] (converted 1) (store_of 0 0 0 true) (Some (whole 255))
        (store_of 0 0 0 true) }
    ensures too_large { AreStuck [] (converted 2) (store_of 0 0 0 true) }
    ensures below { AreStuck [] (converted 3) (store_of 0 0 0 true) }
{}

/// Stores: in their types alone, and those of S and R under their conditions.
fn stores()
    ensures stored { Come [] (ld_b ∷ st_a ∷ []) (store_of 9 2 0 true) (Some (whole 2))
        (store_of 2 2 0 true) }
    ensures outside { AreStuck [] (ld 1 ∷ st_a ∷ []) (store_of 9 2 0 true) }
    ensures of_another_kind { AreStuck [] (ld_a ∷ st_d ∷ []) (store_of 9 2 0 true) }
    ensures opposite { Come [] (ld_d ∷ stn_d ∷ []) (store_of 0 0 0 true) (Some (truth true))
        (store_of 0 0 0 false) }
    ensures opposite_of_a_number { AreStuck [] (ld_a ∷ stn_d ∷ []) (store_of 9 2 0 true) }
    ensures no_result { AreStuck [] (st_a ∷ []) (store_of 9 2 0 true) }
    ensures set { Come [] set (store_of 0 0 0 false) (Some (truth true)) (store_of 0 0 0 true) }
    ensures not_set { Come [] set (store_of 0 0 0 true) (Some (truth false))
        (store_of 0 0 0 true) }
    ensures reset { Come [] reset (store_of 0 0 0 true) (Some (truth true))
        (store_of 0 0 0 false) }
    ensures not_reset { Come [] reset (store_of 0 0 0 false) (Some (truth false))
        (store_of 0 0 0 false) }
{}

/// Parentheses: what waits is on the left, 32 may be open, and each program closes its own.
fn parentheses()
    ensures deferred { Come [] deferred (store_of 9 5 2 true) (Some (whole 6))
        (store_of 6 5 2 true) }
    ensures no_result { AreStuck [] (ld_a ∷ Open Sub ∷ st_a ∷ []) (store_of 9 5 2 true) }
    ensures nothing_open { AreStuck [] (ld_a ∷ Close ∷ []) (store_of 9 5 2 true) }
    ensures most { Come [] (nested 32) (store_of 0 0 0 true) (Some (truth true))
        (store_of 0 0 0 true) }
    ensures one_more { AreStuck [] (nested 33) (store_of 0 0 0 true) }
    ensures open_at_the_end { AreStuck [] (ld_a ∷ Open Sub ∷ ld_b ∷ []) (store_of 9 5 2 true) }
    ensures open_at_a_start { AreStuck (0 ∷ 2 ∷ []) deferred (store_of 9 5 2 true) }
{}

/// Programs one after another: each begins with no current result.
fn programs()
    ensures last { Come (0 ∷ 1 ∷ []) (ld_a ∷ ld_b ∷ []) (store_of 9 5 2 true) (Some (whole 5))
        (store_of 9 5 2 true) }
    ensures empty_last { Come (0 ∷ 1 ∷ []) (ld_a ∷ []) (store_of 9 5 2 true) None
        (store_of 9 5 2 true) }
    ensures anew { AreStuck (0 ∷ 1 ∷ []) (ld_a ∷ st_a ∷ []) (store_of 9 5 2 true) }
{}

/// Jumps: taken or not, forward alone, and no further than to the end.
fn jumps()
    ensures met { ComeIn 2 [] (jump_if 4) (store_of 9 5 2 true) (Some (truth true))
        (store_of 9 5 2 true) }
    ensures unmet { Come [] (jump_if 4) (store_of 9 5 2 false) (Some (whole 9))
        (store_of 9 9 2 false) }
    ensures unless { ComeIn 2 [] (jump_unless 4) (store_of 9 5 2 false) (Some (truth false))
        (store_of 9 5 2 false) }
    ensures not_unless { Come [] (jump_unless 4) (store_of 9 5 2 true) (Some (whole 9))
        (store_of 9 9 2 true) }
    ensures onto_a_word { AreStuckAt 2 1 [] (jump 2) (store_of 9 5 2 true) }
    ensures with_no_result { ComeIn 1 [] (jump 3) (store_of 9 5 2 true) None
        (store_of 9 5 2 true) }
    ensures backward { AreStuckAt 1 1 [] (jump_if 0) (store_of 9 5 2 true) }
    ensures to_itself { AreStuckAt 1 1 [] (jump_if 1) (store_of 9 5 2 true) }
    ensures past_the_end { AreStuckAt 1 1 [] (jump_if 5) (store_of 9 5 2 true) }
    ensures past_the_end_unmet { Come [] (jump_if 5) (store_of 9 5 2 false) (Some (whole 9))
        (store_of 9 9 2 false) }
{}

/// What a jump needs: a truth value, nothing open, and no start between; a return leads to the
/// next start, where there is no current result.
fn conditions()
    ensures of_a_number { AreStuckAt 1 1 [] (ld_a ∷ Jump IfTrue 2 ∷ []) (store_of 9 5 2 true) }
    ensures of_no_result { AreStuckAt 0 0 [] (Jump IfTrue 1 ∷ []) (store_of 9 5 2 true) }
    ensures open { AreStuckAt 3 3 [] jump_in_parentheses (store_of 9 5 2 true) }
    ensures past_a_start { AreStuckAt 1 1 (0 ∷ 3 ∷ []) (jump_if 4) (store_of 9 5 2 true) }
    ensures returned { ComeIn 3 (0 ∷ 3 ∷ []) returning (store_of 9 5 2 true) (Some (whole 9))
        (store_of 9 5 2 true) }
    ensures not_returned { Come (0 ∷ 3 ∷ []) returning (store_of 9 5 2 false) (Some (whole 9))
        (store_of 9 5 2 true) }
    ensures anew { AreStuckAt 2 2 (0 ∷ 2 ∷ []) (ld_d ∷ Jump IfTrue 2 ∷ Jump IfTrue 3 ∷ [])
        (store_of 9 5 2 true) }
{}
