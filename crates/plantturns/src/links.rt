//! What became of the links before the first run.

use std::marker::Brand;

/// The logs of the buses, by their numbers, and of the clock, before the first event of the
/// history.
pub trait Links {
    ghost use Rattle.std.specs.Prelude.{List};
    ghost use Rattle.buslink.specs.BusLog.{BusLog};
    ghost use Rattle.buslink.specs.ClockLog.{ClockLog};

    ghost buses: { List BusLog };

    ghost clock: { ClockLog };
}

impl Links for Brand {
    ghost use Rattle.std.specs.Prelude.{[]};
    ghost use Rattle.plantturns.specs.Logs.{no_moment};

    ghost buses = { [] };

    ghost clock = { no_moment };
}
