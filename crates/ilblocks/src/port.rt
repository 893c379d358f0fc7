//! Ports, and the table of those of each kind, a row each, in the order of their numbers (IEC
//! 61131-3, tables 35 to 37; profile). `Kind::ports` is proved to give the rows of the definition.

use PortValues::{Bus, Int, Truth, UpTo};
use iltypes::{IlType, Range, Value};

/// The greatest number of ports of a kind.
pub const MOST_PORTS: usize = 5;

/// The name of a port.
#[derive(Clone, Copy)]
pub enum PortName {
    Clk,
    Q,
    Cu,
    R,
    Pv,
    Cv,
    In,
    Pt,
    Et,
    Req,
    Bus,
    Adr,
    Level,
    Cmd,
    Data,
    Bank,
    Offset,
    Inst,
    Scheme,
}

/// Whether programs store to a port, or the block does.
#[derive(Clone, Copy, PartialEq, Eq)]
pub enum Direction {
    Input,
    Output,
}

/// What a port may be.
#[derive(Clone, Copy)]
pub enum PortValues {
    /// BOOL.
    Truth,
    /// INT, -32768 to 32767.
    Int,
    /// The whole numbers from 0 to this one.
    UpTo(u32),
    /// The number of a bus, from 0 on.
    Bus,
}

/// A port of a block.
#[derive(Clone, Copy)]
pub struct Port {
    pub name: PortName,
    pub direction: Direction,
    pub values: PortValues,
}

impl PortName {
    ghost use Rattle.std.specs.Prelude.{◌≡◌};
    ghost use Rattle.ilblocks.specs.Ports.{spelling};

    /// How the name is written, in capitals.
    pub fn spelling(self) -> &'static [u8]
        ensures { result.now ≡ spelling self }
    {
        match self {
            PortName::Clk => b"CLK",
            PortName::Q => b"Q",
            PortName::Cu => b"CU",
            PortName::R => b"R",
            PortName::Pv => b"PV",
            PortName::Cv => b"CV",
            PortName::In => b"IN",
            PortName::Pt => b"PT",
            PortName::Et => b"ET",
            PortName::Req => b"REQ",
            PortName::Bus => b"BUS",
            PortName::Adr => b"ADR",
            PortName::Level => b"LEVEL",
            PortName::Cmd => b"CMD",
            PortName::Data => b"DATA",
            PortName::Bank => b"BANK",
            PortName::Offset => b"OFFSET",
            PortName::Inst => b"INST",
            PortName::Scheme => b"SCHEME",
        }
    }
}

impl PortValues {
    ghost use Rattle.std.specs.Prelude.{◌≡◌, ◌≤◌};
    ghost use Rattle.ilblocks.specs.Ports.{type_of, first_of};

    /// The type, on the given number of buses.
    pub fn il_type(self, buses: u8) -> IlType
        requires { 1 ≤ buses }
        ensures { result ≡ type_of buses self }
    {
        match self {
            PortValues::Truth => IlType::Bool,
            PortValues::Int => numbers(-32_768, 32_767),
            PortValues::UpTo(greatest) => numbers(0, i64::from(greatest)),
            PortValues::Bus => numbers(0, i64::from(buses - 1)),
        }
    }

    /// FALSE or 0, which a port has at first.
    pub(crate) fn first(self) -> Value
        ensures { result ≡ first_of self }
    {
        match self {
            PortValues::Truth => Value::Bool(false),
            _ => Value::Int(0),
        }
    }
}

ghost use Rattle.std.specs.Prelude.{◌≡◌, ◌≤ℤ◌};
ghost use Rattle.ilblocks.specs.Ports.{numbers};

/// The whole numbers from `lo` to `hi`.
fn numbers(lo: i64, hi: i64) -> IlType
    requires { lo ≤ℤ hi }
    ensures { result ≡ numbers lo hi }
{
    IlType::Int(Range { lo, hi })
}

impl Port {
    ghost use Rattle.std.specs.Prelude.{◌≡◌};
    ghost use Rattle.ilblocks.specs.Ports.{is_named};

    /// Whether this is the port's name, in any letter case (IEC 61131-3, 2.1.2).
    pub(crate) fn is_named(self, name: &[u8]) -> bool
        ensures { result ≡ is_named name.now self }
    {
        self.name.spelling().eq_ignore_ascii_case(name)
    }
}

/// A port that programs store to.
macro_rules! input {
    ($name:ident, $values:expr) => {
        Port {
            name: PortName::$name,
            direction: Direction::Input,
            values: $values,
        }
    };
}

/// A port that the block stores to.
macro_rules! output {
    ($name:ident, $values:expr) => {
        Port {
            name: PortName::$name,
            direction: Direction::Output,
            values: $values,
        }
    };
}

/// R_TRIG (IEC 61131-3, table 35).
pub const R_TRIG: [Port; 2] = [input!(Clk, Truth), output!(Q, Truth)];

/// CTU (table 36).
pub const CTU: [Port; 5] = [
    input!(Cu, Truth),
    input!(R, Truth),
    input!(Pv, Int),
    output!(Q, Truth),
    output!(Cv, UpTo(32_767)),
];

/// TON (table 37); times are in milliseconds.
pub const TON: [Port; 4] = [
    input!(In, Truth),
    input!(Pt, UpTo(4_294_967_295)),
    output!(Q, Truth),
    output!(Et, UpTo(4_294_967_295)),
];

/// GEAR_LEVEL (profile, as all that follow).
pub const GEAR_LEVEL: [Port; 4] = [
    input!(Req, Truth),
    input!(Bus, Bus),
    input!(Adr, UpTo(80)),
    input!(Level, UpTo(255)),
];

/// GEAR_DO.
pub const GEAR_DO: [Port; 4] = [
    input!(Req, Truth),
    input!(Bus, Bus),
    input!(Adr, UpTo(80)),
    input!(Cmd, UpTo(25)),
];

/// GEAR_SET.
pub const GEAR_SET: [Port; 5] = [
    input!(Req, Truth),
    input!(Bus, Bus),
    input!(Adr, UpTo(80)),
    input!(Cmd, UpTo(22)),
    input!(Data, UpTo(255)),
];

/// GEAR_PAIR.
pub const GEAR_PAIR: [Port; 4] = [
    input!(Req, Truth),
    input!(Bus, Bus),
    input!(Adr, UpTo(80)),
    input!(Cmd, UpTo(49)),
];

/// GEAR_ASK.
pub const GEAR_ASK: [Port; 4] = [
    input!(Req, Truth),
    input!(Bus, Bus),
    input!(Adr, UpTo(63)),
    input!(Cmd, UpTo(42)),
];

/// GEAR_READ.
pub const GEAR_READ: [Port; 5] = [
    input!(Req, Truth),
    input!(Bus, Bus),
    input!(Adr, UpTo(63)),
    input!(Bank, UpTo(255)),
    input!(Offset, UpTo(255)),
];

/// DEV_DO.
pub const DEV_DO: [Port; 5] = [
    input!(Req, Truth),
    input!(Bus, Bus),
    input!(Adr, UpTo(63)),
    input!(Inst, UpTo(31)),
    input!(Cmd, UpTo(1)),
];

/// DEV_SCHEME.
pub const DEV_SCHEME: [Port; 5] = [
    input!(Req, Truth),
    input!(Bus, Bus),
    input!(Adr, UpTo(63)),
    input!(Inst, UpTo(31)),
    input!(Scheme, UpTo(4)),
];

/// DEV_ASK.
pub const DEV_ASK: [Port; 5] = [
    input!(Req, Truth),
    input!(Bus, Bus),
    input!(Adr, UpTo(63)),
    input!(Inst, UpTo(31)),
    input!(Cmd, UpTo(2)),
];
