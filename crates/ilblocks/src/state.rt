//! What an instance keeps from call to call.

ghost use Rattle.std.specs.Prelude.{◌≤◌, length};

use crate::kind::BlockKind;
use crate::port::MOST_PORTS;
use arrayvec::ArrayVec;
use iltypes::Value;
use std::marker::Model;

/// The ports of a block instance, and what it remembers of its last call.
#[derive(Clone, Drop)]
pub struct BlockState {
    ports: ArrayVec<Value, MOST_PORTS>,
    before: bool,
    start: u64,
}

impl Model for BlockState {
    ghost use Rattle.ilblocks.specs.Calls.{Block};

    ghost Value = { Block };

    ghost view = { λ s. record { ports = s.ports.items; before = s.before; start = s.start } };

    ghost inverse = { λ s. record {
      ports = record { items = s.ports };
      before = s.before;
      start = s.start;
    } };
}

impl BlockState {
    ghost use Rattle.std.specs.Prelude.{◌≡◌, ℕ, ◌<◌, ◌^◌, slice_set};
    ghost use Rattle.ilblocks.specs.Calls.{IsBlockOf, at_first, truth, number, natural, rises};
    ghost use Rattle.ilblocks.specs.Ports.{most_ports};

    /// An instance before its first call.
    pub fn at_first(kind: BlockKind) -> BlockState
        ensures value { result ≡ at_first kind }
        ensures typed { (buses : ℕ) → IsBlockOf buses result kind }
    {
        let mut ports = ArrayVec::new();
        for port in kind.ports() {
            ports.push(port.values.first());
        }
        BlockState {
            ports,
            before: false,
            start: 0,
        }
    }

    /// An instance that keeps these: a value for each port, five at most; the first input as it was
    /// at the last call; and the moment at which IN of TON became TRUE.
    pub fn new(ports: &[Value], before: bool, start: u64) -> BlockState
        requires { length ports.now ≤ most_ports }
        ensures { result ≡ record { ports = ports.now; before = before; start = start } }
    {
        let mut kept = ArrayVec::new();
        for port in ports {
            kept.push(*port);
        }
        BlockState {
            ports: kept,
            before,
            start,
        }
    }

    /// The value of each port.
    pub fn ports(&self) -> &[Value]
        ensures { result.now ≡ self.now.ports }
    {
        &self.ports
    }

    /// Stores to a port.
    pub fn set_port(&mut self, port: usize, value: Value)
        requires { port < length self.old.ports }
        ensures { self.new ≡ record self.old { ports = slice_set self.old.ports port value } }
    {
        self.ports[port] = value;
    }

    /// Whether the port is TRUE; FALSE where it has a number.
    pub(crate) fn truth(&self, port: usize) -> bool
        ensures { result ≡ truth self.now port }
    {
        matches!(self.ports().get(port), Some(Value::Bool(true)))
    }

    /// The number at the port, or 0 where there is none.
    pub(crate) fn number(&self, port: usize) -> i64
        ensures { result ≡ number self.now port }
    {
        match self.ports().get(port) {
            Some(Value::Int(number)) => *number,
            _ => 0,
        }
    }

    /// The number at the port, or 0 where it is below 0.
    pub(crate) fn natural(&self, port: usize) -> u64
        ensures value { result ≡ natural self.now port }
        ensures fits { result < 2 ^ 63 }
    {
        self.number(port).max(0) as u64
    }

    /// Whether the first input is TRUE, and was FALSE at the last call.
    pub(crate) fn rises(&self) -> bool
        ensures { result ≡ rises self.now }
    {
        self.truth(0) && !self.before
    }

    /// The first input as it was at the last call.
    pub fn before(&self) -> bool
        ensures { result ≡ self.now.before }
    {
        self.before
    }

    /// Keeps the first input, as it was at this call.
    pub(crate) fn remember(&mut self, first: bool)
        ensures { self.new ≡ record self.old { before = first } }
    {
        self.before = first;
    }

    /// The moment at which IN of TON became TRUE.
    pub fn start(&self) -> u64
        ensures { result ≡ self.now.start }
    {
        self.start
    }

    /// Keeps the moment at which IN of TON became TRUE.
    pub(crate) fn start_at(&mut self, moment: u64)
        ensures { self.new ≡ record self.old { start = moment } }
    {
        self.start = moment;
    }
}
