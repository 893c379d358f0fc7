//! The definitions on worked codes with block instances: each clause is one, proved by computing
//! it.

ghost use Rattle.std.specs.Prelude.{◌≡◌, [], ◌∷◌, ◌++◌, true, false, Some, None};
ghost use Rattle.ilblocks.specs.Address.TheVariants.{Short, Group};
ghost use Rattle.iltypes.specs.declared.value.Value.TheVariants.{Bool as truth};
ghost use Rattle.ilcode.specs.declared.word.Word.TheVariants.{Call, Load, Pass};
ghost use Rattle.ilcode.specs.declared.word.WordOperand.TheVariants.{Constant, Port, Slot};
ghost use Rattle.ilcode.specs.BlockRows.{gear, no_gear, no_timer, request, timer, straight};
ghost use Rattle.ilcode.specs.BlockRows.{with_blocks, with_timer};
ghost use Rattle.ilcode.specs.BlockRows.{call_g, call_t, ld_et, ld_q, pass_in, pass_pt};
ghost use Rattle.ilcode.specs.BlockRows.{r_in, requested, s_in, st_in, st_q, stn_in, timed};
ghost use Rattle.ilcode.specs.Paths.{requests_on};
ghost use Rattle.ilcode.specs.Rows.{AreStuck, Come, code_of, ld_a, ld_d, st_a, store_of, whole};

/// Arguments: to inputs alone, in their types; the current result stays.
fn arguments()
    ensures passed { Come [] (ld_a ∷ pass_in ∷ []) (store_of 7 0 0 true) (Some (whole 7))
        (with_timer (timer true 0 false 0 false 0) (store_of 7 0 0 true)) }
    ensures with_no_result { Come [] (pass_pt ∷ []) (store_of 7 9 0 true) None
        (with_timer (timer false 9 false 0 false 0) (store_of 7 9 0 true)) }
    ensures constant { Come [] (Pass 1 0 (Constant 2) ∷ []) (store_of 7 9 0 true) None
        (with_timer (timer false 256 false 0 false 0) (store_of 7 9 0 true)) }
    ensures outside { AreStuck [] (Pass 1 0 (Constant 3) ∷ []) (store_of 7 9 0 true) }
    ensures of_another_kind { AreStuck [] (Pass 0 0 (Slot 0) ∷ []) (store_of 1 0 0 true) }
    ensures to_an_output { AreStuck [] (Pass 2 0 (Slot 3) ∷ []) (store_of 7 0 0 true) }
    ensures no_port { AreStuck [] (Pass 4 0 (Slot 3) ∷ []) (store_of 7 0 0 true) }
    ensures no_instance { AreStuck [] (Pass 0 2 (Slot 3) ∷ []) (store_of 7 0 0 true) }
    ensures past_the_buses { AreStuck [] (Pass 1 1 (Slot 0) ∷ []) (store_of 1 0 0 true) }
    ensures last_address { Come [] (Pass 2 1 (Slot 0) ∷ []) (store_of 80 0 0 true) None
        (with_blocks no_timer (gear false 0 80 0 false) [] (store_of 80 0 0 true)) }
    ensures past_the_addresses { AreStuck [] (Pass 2 1 (Slot 0) ∷ []) (store_of 81 0 0 true) }
{}

/// Ports as operands and as what is stored to: each is read, an input alone is stored to.
fn ports()
    ensures input { Come [] (pass_pt ∷ Load false (Port 1 0) ∷ []) (store_of 7 9 0 true)
        (Some (whole 9)) (with_timer (timer false 9 false 0 false 0) (store_of 7 9 0 true)) }
    ensures output { Come [] (ld_q ∷ []) (store_of 7 9 0 true) (Some (truth false))
        (store_of 7 9 0 true) }
    ensures opposite { Come [] (Load true (Port 2 0) ∷ []) (store_of 7 9 0 true)
        (Some (truth true)) (store_of 7 9 0 true) }
    ensures no_port { AreStuck [] (Load false (Port 4 0) ∷ []) (store_of 7 9 0 true) }
    ensures no_instance { AreStuck [] (Load false (Port 0 2) ∷ []) (store_of 7 9 0 true) }
    ensures stored { Come [] (ld_d ∷ st_in ∷ []) (store_of 7 9 0 true) (Some (truth true))
        (with_timer (timer true 0 false 0 false 0) (store_of 7 9 0 true)) }
    ensures stored_opposite { Come [] (ld_d ∷ stn_in ∷ []) (store_of 7 9 0 false)
        (Some (truth false)) (with_timer (timer true 0 false 0 false 0) (store_of 7 9 0 false)) }
    ensures of_another_kind { AreStuck [] (ld_a ∷ st_in ∷ []) (store_of 1 9 0 true) }
    ensures to_an_output { AreStuck [] (ld_d ∷ st_q ∷ []) (store_of 7 9 0 true) }
    ensures set { Come [] (ld_d ∷ s_in ∷ []) (store_of 7 9 0 true) (Some (truth true))
        (with_timer (timer true 0 false 0 false 0) (store_of 7 9 0 true)) }
    ensures not_set { Come [] (ld_d ∷ s_in ∷ []) (store_of 7 9 0 false) (Some (truth false))
        (store_of 7 9 0 false) }
    ensures reset { Come [] (ld_d ∷ s_in ∷ r_in ∷ []) (store_of 7 9 0 true) (Some (truth true))
        (store_of 7 9 0 true) }
{}

/// Calls of a TON at 40 ms: elapsed time up to PT, and no current result after a call.
fn calls()
    ensures begun { Come [] timed (store_of 7 9 0 true) None
        (with_timer (timer true 9 false 0 true 40) (store_of 7 9 0 true)) }
    ensures no_delay { Come [] timed (store_of 7 0 0 true) None
        (with_timer (timer true 0 true 0 true 40) (store_of 7 0 0 true)) }
    ensures off { Come [] timed (with_timer (timer true 9 true 9 true 20) (store_of 7 9 0 false))
        None (with_timer (timer false 9 false 0 false 20) (store_of 7 9 0 false)) }
    ensures under_way { Come [] (call_t ∷ ld_et ∷ [])
        (with_timer (timer true 9 false 0 true 35) (store_of 7 9 0 true)) (Some (whole 5))
        (with_timer (timer true 9 false 5 true 35) (store_of 7 9 0 true)) }
    ensures over { Come [] (call_t ∷ ld_q ∷ [])
        (with_timer (timer true 9 false 5 true 31) (store_of 7 9 0 true)) (Some (truth true))
        (with_timer (timer true 9 true 9 true 31) (store_of 7 9 0 true)) }
    ensures long_over { Come [] (call_t ∷ ld_et ∷ [])
        (with_timer (timer true 9 true 9 true 2) (store_of 7 9 0 true)) (Some (whole 9))
        (with_timer (timer true 9 true 9 true 2) (store_of 7 9 0 true)) }
    ensures no_result_after { Come [] (ld_a ∷ call_t ∷ []) (store_of 7 9 0 true) None
        (with_timer (timer false 0 false 0 false 0) (store_of 7 9 0 true)) }
    ensures stored_after { AreStuck [] (ld_a ∷ call_t ∷ st_a ∷ []) (store_of 7 9 0 true) }
    ensures no_instance { AreStuck [] (Call 2 ∷ []) (store_of 7 9 0 true) }
{}

/// Calls of a GEAR_DO: a request at a rising edge of REQ alone, after those before.
fn requests()
    ensures made { Come [] requested (store_of 3 5 0 true) None
        (with_blocks no_timer (gear true 0 3 5 true) (request (Short 3) 5 ∷ [])
        (store_of 3 5 0 true)) }
    ensures to_a_group { Come [] requested (store_of 70 5 0 true) None
        (with_blocks no_timer (gear true 0 70 5 true) (request (Group 6) 5 ∷ [])
        (store_of 70 5 0 true)) }
    ensures not_asked { Come [] requested (store_of 3 5 0 false) None
        (with_blocks no_timer (gear false 0 3 5 false) [] (store_of 3 5 0 false)) }
    ensures once { Come [] (requested ++ call_g ∷ []) (store_of 3 5 0 true) None
        (with_blocks no_timer (gear true 0 3 5 true) (request (Short 3) 5 ∷ [])
        (store_of 3 5 0 true)) }
    ensures after_others { Come [] requested
        (with_blocks no_timer no_gear (request (Short 9) 1 ∷ []) (store_of 3 5 0 true)) None
        (with_blocks no_timer (gear true 0 3 5 true)
        (request (Short 9) 1 ∷ request (Short 3) 5 ∷ []) (store_of 3 5 0 true)) }
    ensures counted { requests_on
        (code_of [] (call_t ∷ call_g ∷ ld_a ∷ call_g ∷ Call 2 ∷ [])) (straight 5)
        ≡ 2 }
{}
