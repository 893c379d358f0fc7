//! The frames that a request spells.
ghost use Rattle.std.specs.Prelude.{◌≡◌, ◌∷◌, [], ◌<◌, ◌≤◌, length};
ghost use Rattle.daliframe.specs.declared.forward.Frame.TheVariants as frame;
ghost use Rattle.daliframe.specs.Addresses.{IsAddress};
ghost use Rattle.daliframe.specs.Frames.{command_frame, device_frame, dtr0_frame, dtr1_frame};
ghost use Rattle.gearcmd.specs.Requests.{frames_of, class_of, IsRequest, IsCommand, read_opcode};
ghost use Rattle.gearcmd.specs.FrameLists.{IsLegal, most_frames};
ghost use Rattle.gearcmd.specs.declared.requests.TaskKind.{TaskKind};

use crate::commands::{
    dev_ask_opcode, dev_do_opcode, gear_ask_opcode, gear_do_opcode, gear_pair_opcode,
    gear_set_opcode,
};
use crate::{Command, Request};
use arrayvec::ArrayVec;
use daliframe::Frame::{Forward16, Forward24};
use daliframe::{Address, Frame, Frame16, Frame24, InstanceNumber, ShortAddress};

/// The greatest number of frames that a request spells.
pub const MOST_FRAMES: usize = 3;

/// READ MEMORY LOCATION: the byte at offset DTR0 of bank DTR1 (IEC 62386-102, clause 11).
const READ_MEMORY_LOCATION: u8 = 0xC5;

/// SET EVENT SCHEME: the scheme that was put in DTR0 of control devices (profile).
const SET_EVENT_SCHEME: u8 = 0x67;

impl Request {
    /// The frames of the request, first to last.
    pub fn frames(&self) -> ArrayVec<Frame, MOST_FRAMES>
        ensures spelled { result.items ≡ frames_of self.now.command }

        // The request is within the ranges of its ports and its frames are a legal list, since its
        // type keeps them there.
        ensures in_range { IsRequest self.now }
        ensures legal { (task : TaskKind) → IsLegal result.items (class_of self.now.command task) }
        ensures count { (1 ≤ length result.items) × (length result.items ≤ most_frames) }
    {
        let _bus = self.bus.number();
        spelled(self.command)
    }
}

/// The frames of what a block asks for.
fn spelled(command: Command) -> ArrayVec<Frame, MOST_FRAMES>
    ensures spelled { result.items ≡ frames_of command }
    ensures in_range { IsCommand command }
{
    match command {
        Command::GearLevel { address, level } => one(Forward16(Frame16::level(address, level))),
        Command::GearDo { address, command } => one(gear(address, gear_do_opcode(command))),
        Command::GearSet {
            address,
            command,
            value,
        } => {
            let dtr0 = Forward16(Frame16::dtr0(value));
            after_dtr0(dtr0, &gear(address, gear_set_opcode(command)))
        }
        Command::GearPair { address, command } => pair(&gear(address, gear_pair_opcode(command))),
        Command::GearAsk { address, command } => {
            one(gear(Address::Short(address), gear_ask_opcode(command)))
        }
        Command::GearRead {
            address,
            bank,
            offset,
        } => memory_read(address, bank, offset),
        Command::DevDo {
            address,
            instance,
            command,
        } => pair(&device(address, instance, dev_do_opcode(command))),
        Command::DevScheme {
            address,
            instance,
            scheme,
        } => {
            let dtr0 = Forward24(Frame24::dtr0(scheme.number()));
            after_dtr0(dtr0, &device(address, instance, SET_EVENT_SCHEME))
        }
        Command::DevAsk {
            address,
            instance,
            command,
        } => one(device(address, instance, dev_ask_opcode(command))),
    }
}

/// An opcode for control gear.
fn gear(address: Address, opcode: u8) -> Frame
    ensures value { result ≡ frame.Forward16 (command_frame address opcode) }
    ensures legal { IsAddress address }
{
    Forward16(Frame16::command(address, opcode))
}

/// An opcode for an instance of a control device.
fn device(address: ShortAddress, instance: InstanceNumber, opcode: u8) -> Frame
    ensures value { result ≡ frame.Forward24 (device_frame address instance opcode) }
    ensures address_legal { address < 64 }
    ensures instance_legal { instance < 32 }
{
    Forward24(Frame24::command(address, instance, opcode))
}

/// A frame alone.
fn one(frame: Frame) -> ArrayVec<Frame, MOST_FRAMES>
    ensures { result.items ≡ frame ∷ [] }
{
    let mut frames = ArrayVec::new();
    frames.push(frame);
    frames
}

/// A frame twice.
fn pair(frame: &Frame) -> ArrayVec<Frame, MOST_FRAMES>
    ensures { result.items ≡ frame.now ∷ frame.now ∷ [] }
{
    let mut frames = one(*frame);
    frames.push(*frame);
    frames
}

/// A frame that sets DTR0, then twice the one that takes it.
fn after_dtr0(dtr0: Frame, frame: &Frame) -> ArrayVec<Frame, MOST_FRAMES>
    ensures { result.items ≡ dtr0 ∷ frame.now ∷ frame.now ∷ [] }
{
    let mut frames = one(dtr0);
    frames.push(*frame);
    frames.push(*frame);
    frames
}

/// DTR1 the bank, DTR0 the offset, then READ MEMORY LOCATION.
fn memory_read(address: ShortAddress, bank: u8, offset: u8) -> ArrayVec<Frame, MOST_FRAMES>
    ensures value { result.items ≡ frame.Forward16 (dtr1_frame bank)
        ∷ frame.Forward16 (dtr0_frame offset)
        ∷ frame.Forward16 (command_frame (Address.Short address) read_opcode) ∷ [] }
    ensures legal { address < 64 }
{
    let mut frames = one(Forward16(Frame16::dtr1(bank)));
    frames.push(Forward16(Frame16::dtr0(offset)));
    frames.push(gear(Address::Short(address), READ_MEMORY_LOCATION));
    frames
}
