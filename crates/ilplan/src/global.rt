//! Global variables (IEC 61131-3, 2.4.3 and 2.7.1).

use ilsource::Name;
use iltypes::{IlType, Value};

/// What a global variable is located at (profile). The numbers of buses count from 0.
#[derive(Clone, Copy)]
pub enum Location {
    /// `%QB b.a`: the level of short address, group or broadcast `a`, 0 to 80.
    Level { bus: u8, address: u8 },
    /// `%IW b.s`: the last answer of the control gear with short address `s`, 0 to 63.
    GearAnswer { bus: u8, short: u8 },
    /// `%IW b.(64+s)`: the last answer of the control device with short address `s`, 0 to 63.
    DeviceAnswer { bus: u8, short: u8 },
    /// `%IW b.(128+k)`: the information of the last event of source `k`.
    Information { bus: u8, source: u8 },
    /// `%IW b.(192+k)`: how many events of source `k` there were, modulo 65,536.
    Count { bus: u8, source: u8 },
    /// `%IX b.k`: the trigger of source `k`.
    Trigger { bus: u8, source: u8 },
}

impl Location {
    ghost use Rattle.std.specs.Prelude.{◌≡◌};
    ghost use Rattle.ilplan.specs.Plans.{is_input};

    /// Whether the variable is an input, which no program stores to.
    pub fn is_input(self) -> bool
        ensures value { result ≡ is_input self }
    {
        !matches!(self, Location::Level { .. })
    }
}

/// A global variable.
#[derive(Clone, Copy)]
pub struct Global {
    /// Its name in the text.
    pub name: Name,
    pub location: Option<Location>,
    pub value_type: IlType,
    /// Its value before the first scan.
    pub initial: Value,
}
