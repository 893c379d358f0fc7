//! Frames, commands and queues.

ghost use Rattle.std.specs.Prelude.{◌≡◌, ◌≢◌, [], true, false, IsSomeAnd};

use busqueue::{Class, Queues};
use dalievent::EventSource;
use daliframe::{Address, EventScheme, Frame16, Frame24, OpcodeClass};
use gearcmd::{GearAskCommand, Request, gear_ask_opcode};

/// `group_address_sent_as_short`: the level of group 0 went to short address 0.
pub fn level_of_group_0_is_80fe(address: Address) -> u16
    requires { address ≡ Address.Group 0 }
    ensures { result ≡ 0x80FE }
{
    Frame16::level(address, 254).number()
}

/// `opcode_09_sent_once`: an opcode that the profile lacks was one that is sent once.
pub fn opcode_09_is_none() -> bool
    ensures { result ≡ true }
{
    OpcodeClass::of(0x09).is_none()
}

/// `event_bit_taken_from_bit_15`: bit 15 in place of bit 16 told commands from events.
pub fn bit_16_makes_a_command() -> bool
    ensures { result ≡ true }
{
    match Frame24::new(0x01_0000) {
        Some(frame) => frame.is_command(),
        None => true,
    }
}

/// `last_information_unheard`: the message with the greatest information was none of its source.
pub fn last_information_is_heard() -> bool
    ensures { result ≡ true }
{
    let source = EventSource {
        scheme: EventScheme::Device,
        a: 0,
        b: 0,
    };
    match Frame24::new(1023) {
        Some(frame) => source.information(frame).is_some(),
        None => true,
    }
}

/// `any_part_b_heard_as_0`: a message was heard whatever its second part.
pub fn another_part_b_is_not_heard() -> bool
    ensures { result ≡ false }
{
    let source = EventSource {
        scheme: EventScheme::Device,
        a: 0,
        b: 1,
    };
    match Frame24::new(5) {
        Some(frame) => source.information(frame).is_some(),
        None => false,
    }
}

/// `query_table_shifted_by_one`: the query of place 22 had the opcode behind its own.
pub fn query_22_has_opcode_a6() -> u8
    ensures { result ≡ 0xA6 }
{
    match GearAskCommand::new(22) {
        Some(command) => gear_ask_opcode(command),
        None => 0xA6,
    }
}

/// `greatest_class_first`: a query went before a user action.
pub fn user_actions_go_first(queues: &mut Queues) -> Option<(Class, Request)>
    requires { queues.old.user_action.waiting ≢ [] }
    ensures { IsSomeAnd result (λ next. next.0 ≡ Class.UserAction) }
{
    queues.next()
}
