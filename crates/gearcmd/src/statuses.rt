//! The status byte of control gear.
ghost use Rattle.std.specs.Prelude.{⊤, [], ◌∷◌, codes};

use bitflags::{Flag, Flags, bitflag_items};

/// The answer to QUERY STATUS (IEC 62386-102, clause 11).
#[derive(Clone, Copy, PartialEq, Eq, Debug)]
pub struct Status(u8);

bitflag_items! {
    impl Status: u8 {
        const GEAR_FAILURE = 1;
        const LAMP_FAILURE = 2;
        const LAMP_ON = 4;
        const LIMIT_ERROR = 8;
        const FADE_RUNNING = 16;
        const RESET_STATE = 32;
        const MISSING_SHORT_ADDRESS = 64;
        const POWER_CYCLE_SEEN = 128;
    }
}

impl Flags for Status {
    type Bits = u8;

    ghost exact = { ⊤ };

    ghost table = { (codes "GEAR_FAILURE", 1)
        ∷ (codes "LAMP_FAILURE", 2)
        ∷ (codes "LAMP_ON", 4)
        ∷ (codes "LIMIT_ERROR", 8)
        ∷ (codes "FADE_RUNNING", 16)
        ∷ (codes "RESET_STATE", 32)
        ∷ (codes "MISSING_SHORT_ADDRESS", 64)
        ∷ (codes "POWER_CYCLE_SEEN", 128)
        ∷ [] };

    ghost set_of = { λ s. s.0 };

    fn flags<'a>() -> &'a [Flag<Status>] {
        Status::FLAGS
    }

    fn bits(&self) -> u8 {
        self.0
    }

    fn from_bits_retain(bits: u8) -> Status {
        Status(bits)
    }
}
