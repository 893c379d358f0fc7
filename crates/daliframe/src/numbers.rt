//! Numbers below a limit, which their type keeps.
ghost use Rattle.std.specs.Prelude.{◌≡◌, ◌<◌};
ghost use Rattle.std.specs.Option.{SomeIff};

use crate::kinds;
use std::marker::{Model, PhantomData};

/// A number below a limit. `Of` says what it is the number of; contracts see the number alone.
#[derive_where(Clone, Copy, Debug, PartialEq, Eq)]
pub struct Number<Of, const LIMIT: u8> {
    number: u8,
    of: PhantomData<Of>,
}

impl<Of, const LIMIT: u8> Model for Number<Of, LIMIT> {
    ghost use Rattle.std.specs.Prelude.{ℕ, ◌<◌};

    ghost Value = { ℕ };

    ghost view = { λ n. n.number };

    ghost invariant = { λ n. n.number < LIMIT };

    ghost inverse = { λ n. record { number = n; of = record {} } };
}

impl<Of, const LIMIT: u8> Number<Of, LIMIT> {
    /// The number, where it is below the limit.
    pub fn new(number: u8) -> Option<Self>
        ensures { SomeIff result (number < LIMIT) number }
    {
        if number < LIMIT {
            Some(Self::below(number))
        } else {
            None
        }
    }

    /// The number, which is known to be below the limit.
    pub(crate) fn below(number: u8) -> Self
        requires { number < LIMIT }
        ensures { result ≡ number }
    {
        Number {
            number,
            of: PhantomData,
        }
    }

    /// The number, which is below the limit.
    pub fn number(self) -> u8
        ensures value { result ≡ self }
        ensures range { self < LIMIT }
    {
        self.number
    }
}

/// A short address, 0 to 63, of one control gear or control device.
pub type ShortAddress = Number<kinds::OfShort, 64>;

/// A group of control gear, 0 to 15.
pub type GroupAddress = Number<kinds::OfGroup, 16>;

/// The number of an instance of a control device, 0 to 31.
pub type InstanceNumber = Number<kinds::OfInstance, 32>;

/// The type of an instance of a control device, 0 to 31.
pub type InstanceType = Number<kinds::OfInstanceKind, 32>;

/// The number of a bus, 0 to 63.
pub type BusNumber = Number<kinds::OfBus, { limits::MOST_BUSES }>;

/// Bus 0, which fills the unused places of a collection of fixed capacity.
impl Default for Number<kinds::OfBus, { limits::MOST_BUSES }> {
    ghost is_default = { λ bus. bus ≡ 0 };

    fn default() -> Self {
        Number::below(0)
    }
}
