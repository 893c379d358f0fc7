//! Controllers in programs of somebody's own.

ghost use Rattle.std.specs.Prelude.{◌≡◌, ◌<◌, IfErr, IfOk, None, OnOk, vec_len};
ghost use Rattle.plantevents.specs.declared.event.Event.TheVariants.{Tick};
ghost use Rattle.plant.specs.Refusals.{first_refusal, tick_cases};
ghost use Rattle.plant.specs.Shown.{grown};

use buslink::Bus;
use gushewa::{Controller, NotOpened, Setup, Unobserved};
use plantdriving::Halt;
use std::alloc::Global;

/// `it_stands_on_fewer_buses`: a controller began though its text has more buses.
pub fn too_few_buses_are_refused<B: Bus>(
    alloc: Global,
    setup: Setup,
    buses: Vec<B>,
    limit: u64,
) -> Result<Controller<B>, NotOpened>
    requires { vec_len buses < setup.plan.buses }
    ensures opened { OnOk result ⊥ }
    ensures refused { IfErr result (λ fault. fault ≡ NotOpened.Buses) }
{
    Controller::open(alloc, setup, buses, limit)
}

/// `its_limit_is_half`: a controller began with another limit than was asked.
pub fn limit_is_that_which_was_asked<B: Bus>(
    alloc: Global,
    setup: Setup,
    buses: Vec<B>,
) -> Result<Controller<B>, NotOpened>
    ensures { IfOk result (λ controller. controller.plant.limit ≡ 1000) }
{
    Controller::open(alloc, setup, buses, 1000)
}

/// `its_time_passes_half_as_fast`: another moment came than was given.
pub fn moment_comes_as_it_is_given<B: Bus>(controller: &mut Controller<B>) -> Result<(), Halt>
    requires { first_refusal (tick_cases controller.old.plant 1000) ≡ None }
    ensures { OnOk result (controller.new.plant ≡ grown controller.old.plant (Tick 1000)) }
{
    controller.tick(1000, &mut Unobserved)
}
