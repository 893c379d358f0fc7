//! Why a run ended, and how far one goes on.

ghost use Rattle.std.specs.Prelude.{◌≡◌, ◌+◌, ◌<◌, IfOk, OnOk, true};
ghost use Rattle.limits.specs.Limits.{most_total};
ghost use Rattle.plant.specs.Shown.{used};

use buslink::{Bus, Clock};
use plant::CallRefusal;
use plantdriving::Halt;
use std::alloc::Global;
use std::sync::Wait;
use std::thread::Threads;
use std::time::Clock as Timer;
use workers::{Closed, Ended, Gate, NotGoneOn, NotStarted, Opening, go_on, run};

/// `a_full_history_called_out_of_memory`: a run whose history is full was out of memory.
pub fn full_history_is_no_want_of_memory(refusal: CallRefusal) -> Ended
    ensures { result ≡ Ended.Limit }
{
    Ended::from(Halt::Refused(refusal))
}

/// `the_opening_state_told_as_the_clocks_end`: a run came to the end of a clock that it had not
/// asked, and that had a moment more to give.
pub fn clock_of_a_run_that_ended_gave_no_moment<
    B: Bus + Send,
    C: Clock + Send,
    G: Gate,
    R: Threads + Wait + Timer + Sync,
>(
    rt: &R,
    alloc: Global,
    opening: Opening,
    buses: Vec<B>,
    clock: C,
    gate: &G,
) -> Result<Closed<B, C>, NotStarted<B, C>>
    ensures { IfOk result
        (λ left. left.ended ≡ Ended.Asked → (C.log left.clock).gave_none ≡ true) }
{
    run(rt, alloc, opening, buses, clock, 2, gate)
}

/// `a_total_of_too_many_events`: a run went on to more than the 2^59 events that a history comes to
/// at most.
pub fn run_goes_on_up_to_the_most_events<
    B: Bus + Send,
    C: Clock + Send,
    G: Gate,
    R: Threads + Wait + Timer + Sync,
>(rt: &R, alloc: Global, closed: Closed<B, C>, gate: &G) -> Result<Closed<B, C>, NotGoneOn<B, C>>
    requires { most_total < used closed.plant + 100 }
    ensures { OnOk result ⊥ }
{
    go_on(rt, alloc, closed, 100, gate)
}
