//! The kinds of blocks.

use crate::port::{
    CTU, DEV_ASK, DEV_DO, DEV_SCHEME, Direction, GEAR_ASK, GEAR_DO, GEAR_LEVEL, GEAR_PAIR,
    GEAR_READ, GEAR_SET, Port, R_TRIG, TON,
};
use iltypes::IlType;

/// A kind of function block.
#[derive(Clone, Copy)]
pub enum BlockKind {
    /// R_TRIG: a rising edge (IEC 61131-3, table 35).
    RTrig,
    /// CTU: a counter of rising edges (table 36).
    Ctu,
    /// TON: an on-delay timer (table 37).
    Ton,
    // Each of the others makes a request at a rising edge of its port REQ (profile).
    GearLevel,
    GearDo,
    GearSet,
    GearPair,
    GearAsk,
    GearRead,
    DevDo,
    DevScheme,
    DevAsk,
}

impl BlockKind {
    ghost use Rattle.std.specs.Prelude.{◌≡◌, ◌≤◌, length};
    ghost use Rattle.ilblocks.specs.Ports.{ports_of, most_ports, makes_requests, port_named};
    ghost use Rattle.ilblocks.specs.Ports.{port_type, input_type, keeps_start};

    /// The ports, in the order of their numbers: two to five.
    pub fn ports(self) -> &'static [Port]
        ensures value { result.now ≡ ports_of self }
        ensures few { length (ports_of self) ≤ most_ports }
    {
        match self {
            BlockKind::RTrig => &R_TRIG,
            BlockKind::Ctu => &CTU,
            BlockKind::Ton => &TON,
            BlockKind::GearLevel => &GEAR_LEVEL,
            BlockKind::GearDo => &GEAR_DO,
            BlockKind::GearSet => &GEAR_SET,
            BlockKind::GearPair => &GEAR_PAIR,
            BlockKind::GearAsk => &GEAR_ASK,
            BlockKind::GearRead => &GEAR_READ,
            BlockKind::DevDo => &DEV_DO,
            BlockKind::DevScheme => &DEV_SCHEME,
            BlockKind::DevAsk => &DEV_ASK,
        }
    }

    /// Whether a call may make a request.
    pub fn makes_requests(self) -> bool
        ensures { result ≡ makes_requests self }
    {
        !matches!(self, BlockKind::RTrig | BlockKind::Ctu | BlockKind::Ton)
    }

    /// Whether an instance keeps the moment at which its first input became TRUE.
    pub fn keeps_start(self) -> bool
        ensures { result ≡ keeps_start self }
    {
        match self {
            BlockKind::Ton => true,
            BlockKind::RTrig
            | BlockKind::Ctu
            | BlockKind::GearLevel
            | BlockKind::GearDo
            | BlockKind::GearSet
            | BlockKind::GearPair
            | BlockKind::GearAsk
            | BlockKind::GearRead
            | BlockKind::DevDo
            | BlockKind::DevScheme
            | BlockKind::DevAsk => false,
        }
    }

    /// The type of a port, on the given number of buses.
    pub fn port_type(self, buses: u8, port: usize) -> Option<IlType>
        requires { 1 ≤ buses }
        ensures { result ≡ port_type buses self port }
    {
        self.ports()
            .get(port)
            .map(|port| port.values.il_type(buses))
    }

    /// The type of an input port, on the given number of buses; none where the port is an output.
    pub fn input_type(self, buses: u8, port: usize) -> Option<IlType>
        requires { 1 ≤ buses }
        ensures { result ≡ input_type buses self port }
    {
        match self.ports().get(port) {
            Some(port) if port.direction == Direction::Input => Some(port.values.il_type(buses)),
            _ => None,
        }
    }

    /// The number of the port of this name, without regard to letter case.
    pub fn port_named(self, name: &[u8]) -> Option<usize>
        ensures { result ≡ port_named self name.now }
    {
        self.ports().iter().position(|port| port.is_named(name))
    }
}
