//! What simulated control gear answers.
ghost use Rattle.std.specs.Prelude.{◌≡◌, ◌<◌, ◌≤◌, ◌^◌, length};
ghost use Rattle.simbus.specs.Answers.{yes_if, is_lit, status, byte_of, memory_byte, answer_to};
ghost use Rattle.simbus.specs.Answers.{fields_answer};

use crate::commands::{GearCommand, Query};
use crate::gears::{MAX_LEVEL, MIN_LEVEL};
use crate::{Gear, GearVariables, MemoryByte};
use bitflags::Flags;
use daliframe::{Fields16, ShortAddress};
use gearcmd::Status;

/// The answer that says YES. NO is no answer.
const YES: u8 = 0xFF;

fn yes_if(holds: bool) -> Option<u8>
    ensures { result ≡ yes_if holds }
{
    if holds { Some(YES) } else { None }
}

/// The byte with these bits, bit 0 first.
fn byte_of(bits: &[bool]) -> u8
    requires { length bits.now ≤ 8 }
    ensures value { result ≡ byte_of bits.now }
    ensures bound { result < 2 ^ length bits.now }
{
    match bits {
        [] => 0,
        [bit, rest @ ..] => u8::from(*bit) + 2 * byte_of(rest),
    }
}

/// The byte at this place of the memory banks of gear, which is the last that was declared for it.
fn memory_byte(memory: &[MemoryByte], address: ShortAddress, bank: u8, offset: u8) -> Option<u8>
    ensures { result ≡ memory_byte memory.now address bank offset }
{
    memory
        .iter()
        .rev()
        .find(|byte| byte.address == address && byte.bank == bank && byte.offset == offset)
        .map(|byte| byte.value)
}

impl Gear {
    fn is_lit(&self, variables: &GearVariables) -> bool
        ensures { result ≡ is_lit self.now variables.now }
    {
        !self.lamp_failure && variables.level != 0
    }

    fn status(&self, variables: &GearVariables) -> u8
        ensures { result ≡ status self.now variables.now }
    {
        let mut status = Status::empty();
        if self.lamp_failure {
            status.insert(Status::LAMP_FAILURE);
        }
        if self.is_lit(variables) {
            status.insert(Status::LAMP_ON);
        }
        status.bits()
    }

    fn answer_to(
        &self,
        variables: &GearVariables,
        memory: &[MemoryByte],
        query: Query,
    ) -> Option<u8>
        ensures { result ≡ answer_to memory.now self.now query variables.now }
    {
        match query {
            Query::Status => Some(self.status(variables)),
            Query::ControlGearPresent => Some(YES),
            Query::LampFailure => yes_if(self.lamp_failure),
            Query::LampPowerOn => yes_if(self.is_lit(variables)),
            Query::ContentDtr0 => Some(variables.dtr0),
            Query::ContentDtr1 => Some(variables.dtr1),
            Query::ActualLevel => Some(variables.level),
            Query::MaxLevel => Some(MAX_LEVEL),
            Query::MinLevel => Some(MIN_LEVEL),
            Query::SceneLevel(scene) => Some(variables.scenes[scene.index()]),
            Query::Groups0To7 => Some(byte_of(&variables.groups[..8])),
            Query::Groups8To15 => Some(byte_of(&variables.groups[8..])),
            Query::Memory => memory_byte(memory, self.address, variables.dtr1, variables.dtr0),
        }
    }

    /// What gear with these variables answers to a frame that says this.
    pub(crate) fn answer(
        &self,
        variables: &GearVariables,
        memory: &[MemoryByte],
        fields: &Fields16,
    ) -> Option<u8>
        ensures { result ≡ fields_answer memory.now self.now fields.now variables.now }
    {
        match fields {
            Fields16::Command { address, opcode }
                if variables.is_addressed(self.address, *address) => {
                match GearCommand::of(*opcode) {
                    GearCommand::Ask(query) => self.answer_to(variables, memory, query),
                    GearCommand::Act(_) | GearCommand::Set(_) | GearCommand::Nothing => None,
                }
            }
            _ => None,
        }
    }
}
