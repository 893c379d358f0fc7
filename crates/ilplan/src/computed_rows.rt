//! What a plan means on worked scans: each clause is one, proved by computing it.

ghost use Rattle.std.specs.Prelude.{[], ◌∷◌, true, false};
ghost use Rattle.ilplan.specs.declared.place.Place.TheVariants.{Slot, Port, Block};
ghost use Rattle.ilplan.specs.Rows.{Scans, Requests, IsStuck, before, after_trigger};
ghost use Rattle.ilplan.specs.Rows.{edge, ask, ld, ld_number, st, call, clk, q};

/// A trigger: its output is read after the call, and its memory goes on from scan to scan.
fn blocks()
    ensures rising { Scans 1 edge (before true false) (after_trigger true true true) }
    ensures held { Scans 1 edge (after_trigger true true true) (after_trigger true false false) }
    ensures output { IsStuck 1 (ld (Slot 0) ∷ st q ∷ []) }
    ensures no_value { IsStuck 1 (ld (Block 0) ∷ []) }
    ensures no_variable { IsStuck 1 (ld (Slot 0) ∷ st (Block 0) ∷ []) }
    ensures no_block { IsStuck 1 (call (Slot 0) [] ∷ []) }
    ensures no_call_of_a_port { IsStuck 1 (call clk [] ∷ []) }
    ensures past_the_last { IsStuck 1 (call (Block 2) [] ∷ []) }
{}

/// Requests, one at a rising edge, and ports in their ranges: a level of 255 is none too much, and
/// the last bus is one less than there are.
fn requests()
    ensures none { Requests 1 [] 0 }
    ensures one { Requests 1 (ask ∷ ask ∷ []) 1 }
    ensures greatest { Requests 1 (ld_number 255 ∷ st (Port 1 3) ∷ ask ∷ []) 1 }
    ensures too_great { IsStuck 1 (ld_number 256 ∷ st (Port 1 3) ∷ ask ∷ []) }
    ensures no_such_bus { IsStuck 1 (ld_number 1 ∷ st (Port 1 1) ∷ ask ∷ []) }
    ensures last_bus { Requests 2 (ld_number 1 ∷ st (Port 1 1) ∷ ask ∷ []) 1 }
{}
