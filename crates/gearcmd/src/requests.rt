//! Requests, their classes and the kinds of tasks that they come from.
ghost use Rattle.std.specs.Prelude.{◌≡◌, ◌⊎◌, ◌≤◌};
ghost use Rattle.gearcmd.specs.Requests.{class_of, task_class, answerer_of};
ghost use Rattle.gearcmd.specs.declared.requests.TaskKind.{TaskKind as Kind};

use crate::{
    DevAskCommand, DevDoCommand, GearAskCommand, GearDoCommand, GearPairCommand, GearSetCommand,
};
use daliframe::{Address, BusNumber, EventScheme, InstanceNumber, ShortAddress};

/// What starts a task (IEC 61131-3, clause 2.7).
#[derive(Clone, Copy, Debug, PartialEq, Eq)]
pub enum TaskKind {
    /// An interval of time.
    Cyclic,
    /// An event, the task's SINGLE input.
    Event,
}

impl TaskKind {
    /// The class of what a task of this kind sends once and is not answered: 2 of an event task, 4
    /// of a cyclic one (profile).
    pub fn class(self) -> u8
        ensures { result ≡ task_class self }
    {
        match self {
            TaskKind::Event => 2,
            TaskKind::Cyclic => 4,
        }
    }
}

/// What a block asks for, by its ports but for the bus.
#[derive(Clone, Copy, Debug, PartialEq, Eq)]
pub enum Command {
    /// GEAR_LEVEL: a level, 0 off, 1 to 254, 255 no new level.
    GearLevel {
        address: Address,
        level: u8,
    },
    /// GEAR_DO: a command that is sent once.
    GearDo {
        address: Address,
        command: GearDoCommand,
    },
    /// GEAR_SET: DTR0, then a command that is sent twice.
    GearSet {
        address: Address,
        command: GearSetCommand,
        value: u8,
    },
    /// GEAR_PAIR: a command that is sent twice.
    GearPair {
        address: Address,
        command: GearPairCommand,
    },
    /// GEAR_ASK: a query to one control gear.
    GearAsk {
        address: ShortAddress,
        command: GearAskCommand,
    },
    /// GEAR_READ: a byte of a memory bank of one control gear.
    GearRead {
        address: ShortAddress,
        bank: u8,
        offset: u8,
    },
    /// DEV_DO: a command to an instance of a control device that is sent twice.
    DevDo {
        address: ShortAddress,
        instance: InstanceNumber,
        command: DevDoCommand,
    },
    /// DEV_SCHEME: DTR0 of control devices, then SET EVENT SCHEME twice.
    DevScheme {
        address: ShortAddress,
        instance: InstanceNumber,
        scheme: EventScheme,
    },
    /// DEV_ASK: a query to an instance of a control device.
    DevAsk {
        address: ShortAddress,
        instance: InstanceNumber,
        command: DevAskCommand,
    },
}

/// What a program asks of a bus: the values of all ports of the block that asks.
#[derive(Clone, Copy, Debug, PartialEq, Eq)]
pub struct Request {
    /// The port BUS.
    pub bus: BusNumber,
    /// The other ports.
    pub command: Command,
}

/// No new level for all control gear of bus 0, which fills the unused places of a collection of
/// fixed capacity.
impl Default for Request {
    ghost use Rattle.daliframe.specs.declared.addressing.Address.TheVariants.{Broadcast};
    ghost use Rattle.gearcmd.specs.declared.requests.Command.TheVariants.{GearLevel};

    ghost is_default = { λ r. r ≡ record { bus = 0; command = GearLevel Broadcast 255 } };

    fn default() -> Self {
        Request {
            bus: BusNumber::default(),
            command: Command::GearLevel {
                address: Address::Broadcast,
                level: 255,
            },
        }
    }
}

/// Whose answer a request brings.
#[derive(Clone, Copy)]
pub enum Answerer {
    /// The control gear of this short address.
    Gear(ShortAddress),
    /// This instance of the control device of this short address.
    Instance {
        address: ShortAddress,
        instance: InstanceNumber,
    },
}

impl Request {
    /// The class of a request from a task of this kind, 2 to 5, which is also its first frame's
    /// priority: 3 for what is sent twice, 5 for queries and memory reads, else 2 from an event
    /// task and 4 from a cyclic one (profile).
    pub fn class(&self, task: TaskKind) -> u8
        ensures value { result ≡ class_of self.now.command task }

        // Classes 3 and 5 do not depend on the kind of task; 2 comes from event tasks alone, and 4
        // from cyclic ones.
        ensures same { (result ≡ 3) ⊎ (result ≡ 5)
            → (other : Kind) → class_of self.now.command other ≡ result }
        ensures from_event { result ≡ 2 → task ≡ TaskKind.Event }
        ensures from_cyclic { result ≡ 4 → task ≡ TaskKind.Cyclic }
        ensures range { (2 ≤ result) × (result ≤ 5) }
    {
        match self.command {
            Command::GearSet { .. }
            | Command::GearPair { .. }
            | Command::DevDo { .. }
            | Command::DevScheme { .. } => 3,
            Command::GearAsk { .. } | Command::GearRead { .. } | Command::DevAsk { .. } => 5,
            Command::GearLevel { .. } | Command::GearDo { .. } => task.class(),
        }
    }

    /// Whose answer the request brings, where it is a query or a memory read.
    pub fn answerer(&self) -> Option<Answerer>
        ensures { result ≡ answerer_of self.now.command }
    {
        match self.command {
            Command::GearAsk { address, .. } | Command::GearRead { address, .. } => {
                Some(Answerer::Gear(address))
            }
            Command::DevAsk {
                address,
                instance,
                ..
            } => Some(Answerer::Instance { address, instance }),
            _ => None,
        }
    }
}
