//! The commands of the request blocks: each is its port CMD, a place in its block's table of
//! opcodes.
ghost use Rattle.std.specs.Prelude.{◌≡◌, ℕ, ◌<◌, ◌↔◌, Contains, slice_index};
ghost use Rattle.daliframe.specs.Opcodes.{IsOfClass, IsOfDeviceClass};
ghost use Rattle.daliframe.specs.declared.opcodes.OpcodeClass.TheVariants as gear;
ghost use Rattle.daliframe.specs.declared.opcodes.DeviceOpcodeClass.TheVariants as device;
ghost use Rattle.gearcmd.specs.Commands.{gear_do_opcodes, gear_set_opcodes};
ghost use Rattle.gearcmd.specs.Commands.{gear_pair_opcodes, gear_ask_opcodes};
ghost use Rattle.gearcmd.specs.Commands.{dev_do_opcodes, dev_ask_opcodes};

use crate::blocks;
use daliframe::Number;

/// A level change, sent once: 0 to 25.
pub type GearDoCommand = Number<blocks::GearDo, 26>;

/// A setting taken from DTR0, sent twice: 0 to 22.
pub type GearSetCommand = Number<blocks::GearSet, 23>;

/// A setting, sent twice: 0 to 49.
pub type GearPairCommand = Number<blocks::GearPair, 50>;

/// A query to control gear: 0 to 42.
pub type GearAskCommand = Number<blocks::GearAsk, 43>;

/// A change of an instance of a control device, sent twice: 0 to 1.
pub type DevDoCommand = Number<blocks::DevDo, 2>;

/// A query to an instance of a control device: 0 to 2.
pub type DevAskCommand = Number<blocks::DevAsk, 3>;

/// OFF to ON AND STEP UP, GO TO LAST ACTIVE LEVEL, GO TO SCENE 0 to 15.
static GEAR_DO: [u8; 26] = [
    0x00, 0x01, 0x02, 0x03, 0x04, 0x05, 0x06, 0x07, 0x08, 0x0A, 0x10, 0x11, 0x12, 0x13, 0x14, 0x15,
    0x16, 0x17, 0x18, 0x19, 0x1A, 0x1B, 0x1C, 0x1D, 0x1E, 0x1F,
];

/// SET MAX LEVEL to SET EXTENDED FADE TIME, SET SCENE 0 to 15.
static GEAR_SET: [u8; 23] = [
    0x2A, 0x2B, 0x2C, 0x2D, 0x2E, 0x2F, 0x30, 0x40, 0x41, 0x42, 0x43, 0x44, 0x45, 0x46, 0x47, 0x48,
    0x49, 0x4A, 0x4B, 0x4C, 0x4D, 0x4E, 0x4F,
];

/// RESET, STORE ACTUAL LEVEL IN DTR0, then REMOVE FROM SCENE, ADD TO GROUP and REMOVE FROM GROUP, 0
/// to 15 each.
static GEAR_PAIR: [u8; 50] = [
    0x20, 0x21, 0x50, 0x51, 0x52, 0x53, 0x54, 0x55, 0x56, 0x57, 0x58, 0x59, 0x5A, 0x5B, 0x5C, 0x5D,
    0x5E, 0x5F, 0x60, 0x61, 0x62, 0x63, 0x64, 0x65, 0x66, 0x67, 0x68, 0x69, 0x6A, 0x6B, 0x6C, 0x6D,
    0x6E, 0x6F, 0x70, 0x71, 0x72, 0x73, 0x74, 0x75, 0x76, 0x77, 0x78, 0x79, 0x7A, 0x7B, 0x7C, 0x7D,
    0x7E, 0x7F,
];

/// QUERY STATUS to QUERY GROUPS 8 TO 15, but for the opcodes between that this profile leaves out.
static GEAR_ASK: [u8; 43] = [
    0x90, 0x91, 0x92, 0x93, 0x94, 0x95, 0x96, 0x97, 0x98, 0x99, 0x9A, 0x9B, 0x9C, 0x9D, 0x9E, 0x9F,
    0xA0, 0xA1, 0xA2, 0xA3, 0xA4, 0xA5, 0xA6, 0xA8, 0xAA, 0xB0, 0xB1, 0xB2, 0xB3, 0xB4, 0xB5, 0xB6,
    0xB7, 0xB8, 0xB9, 0xBA, 0xBB, 0xBC, 0xBD, 0xBE, 0xBF, 0xC0, 0xC1,
];

/// ENABLE INSTANCE, DISABLE INSTANCE.
static DEV_DO: [u8; 2] = [0x62, 0x63];

/// QUERY INSTANCE TYPE, QUERY EVENT SCHEME, QUERY INPUT VALUE.
static DEV_ASK: [u8; 3] = [0x80, 0x8B, 0x8C];

/// The opcode of a GEAR_DO block's command.
pub fn gear_do_opcode(command: GearDoCommand) -> u8
    ensures value { result ≡ slice_index gear_do_opcodes command }
    ensures class { IsOfClass gear.Once result }
    ensures all_of_class { (o : ℕ) → Contains gear_do_opcodes o ↔ IsOfClass gear.Once o }
    ensures range { command < 26 }
{
    GEAR_DO[usize::from(command.number())]
}

/// The opcode of a GEAR_SET block's command.
pub fn gear_set_opcode(command: GearSetCommand) -> u8
    ensures value { result ≡ slice_index gear_set_opcodes command }
    ensures class { IsOfClass gear.TwiceAfterDtr0 result }
    ensures all_of_class { (o : ℕ) → Contains gear_set_opcodes o ↔ IsOfClass gear.TwiceAfterDtr0 o }
    ensures range { command < 23 }
{
    GEAR_SET[usize::from(command.number())]
}

/// The opcode of a GEAR_PAIR block's command.
pub fn gear_pair_opcode(command: GearPairCommand) -> u8
    ensures value { result ≡ slice_index gear_pair_opcodes command }
    ensures class { IsOfClass gear.Twice result }
    ensures all_of_class { (o : ℕ) → Contains gear_pair_opcodes o ↔ IsOfClass gear.Twice o }
    ensures range { command < 50 }
{
    GEAR_PAIR[usize::from(command.number())]
}

/// The opcode of a GEAR_ASK block's command.
pub fn gear_ask_opcode(command: GearAskCommand) -> u8
    ensures value { result ≡ slice_index gear_ask_opcodes command }
    ensures class { IsOfClass gear.Query result }
    ensures all_of_class { (o : ℕ) → Contains gear_ask_opcodes o ↔ IsOfClass gear.Query o }
    ensures range { command < 43 }
{
    GEAR_ASK[usize::from(command.number())]
}

/// The opcode of a DEV_DO block's command.
pub fn dev_do_opcode(command: DevDoCommand) -> u8
    ensures value { result ≡ slice_index dev_do_opcodes command }
    ensures class { IsOfDeviceClass device.Twice result }
    ensures all_of_class { (o : ℕ) → Contains dev_do_opcodes o ↔ IsOfDeviceClass device.Twice o }
    ensures range { command < 2 }
{
    DEV_DO[usize::from(command.number())]
}

/// The opcode of a DEV_ASK block's command.
pub fn dev_ask_opcode(command: DevAskCommand) -> u8
    ensures value { result ≡ slice_index dev_ask_opcodes command }
    ensures class { IsOfDeviceClass device.Query result }
    ensures all_of_class { (o : ℕ) → Contains dev_ask_opcodes o ↔ IsOfDeviceClass device.Query o }
    ensures range { command < 3 }
{
    DEV_ASK[usize::from(command.number())]
}
