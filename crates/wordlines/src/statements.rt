//! The statements of a scenario.

use daliframe::{BusNumber, EventScheme, Frame24, InstanceNumber, InstanceType, ShortAddress};

/// What becomes of a frame that is sent.
#[derive(Clone, Copy)]
pub enum FrameFate {
    /// It is lost, and reaches nobody.
    Lost,
    /// It acts, and its answer is damaged.
    Damaged,
    /// The bus interface fails.
    Fault,
}

/// How control gear begins, before any frame.
#[derive(Clone, Copy)]
pub struct GearStart {
    /// The actual level: 0 off, else 1 to 254.
    pub level: u8,
    /// Whether the gear is a member of each group.
    pub groups: [bool; 16],
    /// The level of each scene: 0 off, 1 to 254, 255 no level.
    pub scenes: [u8; 16],
}

/// What a line of a scenario says.
#[derive(Clone, Copy)]
pub enum Statement {
    /// There is a control gear, which begins so.
    Gear {
        bus: BusNumber,
        short: ShortAddress,
        start: GearStart,
    },
    /// The lamp of a control gear failed.
    LampFailure {
        bus: BusNumber,
        short: ShortAddress,
    },
    /// A place of a memory bank of a control gear has this value.
    Memory {
        bus: BusNumber,
        short: ShortAddress,
        bank: u8,
        offset: u8,
        value: u8,
    },
    /// There is a control device.
    Device {
        bus: BusNumber,
        short: ShortAddress,
    },
    /// A control device has this instance.
    InputInstance {
        bus: BusNumber,
        short: ShortAddress,
        number: InstanceNumber,
        /// The instance type (IEC 62386-103).
        kind: InstanceType,
        /// The event scheme (IEC 62386-103).
        scheme: EventScheme,
        /// The input value.
        value: u8,
    },
    /// What becomes of a frame that is sent on a bus.
    Reply {
        bus: BusNumber,
        /// Which of the frames that are sent there, from 1.
        place: u64,
        fate: FrameFate,
    },
    /// The next hear on a bus fails.
    HearFault {
        bus: BusNumber,
    },
    /// The clock comes to this moment, in milliseconds.
    Tick {
        moment: u64,
    },
    /// A frame of a control device is heard.
    Event {
        bus: BusNumber,
        frame: Frame24,
    },
}

impl Statement {
    ghost use Rattle.std.specs.Prelude.{◌≡◌};
    ghost use Rattle.wordlines.specs.Following.{clock_after};

    /// The moment to which the clock comes, where it came to `now`.
    pub(crate) fn clock_after(&self, now: Option<u64>) -> Option<u64>
        ensures { result ≡ clock_after now self.now }
    {
        match *self {
            Statement::Tick { moment } => Some(moment),
            Statement::Event { .. } => Some(now.unwrap_or(0)),
            _ => now,
        }
    }
}
