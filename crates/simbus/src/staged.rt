//! Simulated buses of one scenario, whoever has them.
ghost use Rattle.std.specs.Prelude.{◌≡◌};
ghost use Rattle.simbus.specs.Staged.{IsOnStage};

use crate::SimBus;
use buslink::{Bus, Fault, Reply};
use daliframe::{Frame, Frame24};
use std::alloc::AllocError;
use std::marker::{Brand, Model, PhantomData};

/// A scenario, for contracts alone.
pub trait Scene {
    ghost use Rattle.std.specs.Prelude.{List};
    ghost use Rattle.wordlines.specs.declared.statements.Statement.{Statement};

    ghost statements: { List Statement };
}

impl Scene for Brand {
    ghost use Rattle.std.specs.Prelude.{[]};

    ghost statements = { [] };
}

/// A simulated bus that is equipped as a scenario says it. It stays so, whoever has it meanwhile:
/// that is in its type.
#[derive(Drop)]
pub struct Staged<S: Scene> {
    bus: SimBus,
    of: PhantomData<S>,
}

impl<S: Scene> Model for Staged<S> {
    ghost use Rattle.simbus.specs.Simulated.{Simulated};

    ghost Value = { Simulated };

    ghost use Rattle.simbus.specs.Staged.{IsOnStage};

    ghost view = { λ s. s.bus };

    ghost invariant = { λ s. IsOnStage S.statements s.bus };
}

impl<S: Scene> Staged<S> {
    /// A bus that is equipped as the scenario says it.
    pub fn new(bus: SimBus) -> Staged<S>
        requires { IsOnStage S.statements bus }
        ensures { result ≡ bus }
    {
        Staged {
            bus,
            of: PhantomData,
        }
    }

    /// The bus.
    pub fn into_bus(self) -> SimBus
        ensures bus { result ≡ self }
        ensures stage { IsOnStage S.statements self }
    {
        self.bus
    }
}

impl<S: Scene> Bus for Staged<S> {
    ghost log = { λ b. b.log };

    fn room(&mut self, frames: usize) -> Result<(), AllocError> {
        self.bus.room(frames)
    }

    fn send(&mut self, frame: Frame, priority: u8) -> Result<Reply, Fault> {
        self.bus.send(frame, priority)
    }

    fn hear(&mut self) -> Result<Option<Frame24>, Fault> {
        self.bus.hear()
    }

    fn mend(&mut self) -> bool {
        self.bus.mend()
    }

    fn resume(&mut self) {
        self.bus.resume();
    }
}
