//! The command of a block's name and the numbers of its ports, as an installer writes them.
ghost use Rattle.std.specs.Prelude.{◌≡◌, ◌≢◌, ◌<◌, ℕ, Some, MatchOption};
ghost use Rattle.daliframe.specs.Addresses.{IsAddress, address_number};
ghost use Rattle.daliframe.specs.EventSchemes.{scheme_number};
ghost use Rattle.daliframe.specs.declared.addressing.Address.{Address as To};
ghost use Rattle.daliframe.specs.declared.schemes.EventScheme.{EventScheme as Scheme};
ghost use Rattle.gearcmd.specs.declared.requests.Command.{Command as Asked};
ghost use Rattle.gearcmd.specs.Requests.{IsCommand};
ghost use Rattle.daliwords.specs.Written.{IsWritten};
ghost use Rattle.daliwords.specs.WrittenSteps.{Fits, NoneFits};
ghost use Rattle.daliwords.specs.declared.blocks.Block.TheVariants as is;

use crate::Block;
use daliframe::{Address, EventScheme, Number};
use gearcmd::Command;

/// What the block of this name, in any letter case, asks for with this address and these numbers at
/// the ports behind it, in their order, where it has the given number of ports and the numbers are
/// within their ranges. An address is 0 to 63, a short one; 64 to 79, the groups 0 to 15; or 80,
/// all control gear.
pub fn request_of(
    block: &str,
    address: u8,
    first: Option<u32>,
    second: Option<u32>,
) -> Option<Command>
    ensures command { MatchOption result
        ((c : Asked) → IsCommand c → ¬ IsWritten block.now address first second c)
        (λ c. IsCommand c × IsWritten block.now address first second c) }

    // Words are written of one command at most.
    ensures one { (a b : Asked) → IsCommand a → IsCommand b
        → IsWritten block.now address first second a → IsWritten block.now address first second b
        → a ≡ b }
{
    command_of(Block::of_name(block)?, address, first, second)
}

/// What the block asks for with these ports.
fn command_of(block: Block, address: u8, first: Option<u32>, second: Option<u32>) -> Option<Command>
    ensures { MatchOption result (NoneFits address first second block)
        (Fits address first second block) }
{
    match block {
        Block::GearLevel => gear_level(address, first, second),
        Block::GearDo => gear_do(address, first, second),
        Block::GearSet => gear_set(address, first, second),
        Block::GearPair => gear_pair(address, first, second),
        Block::GearAsk => gear_ask(address, first, second),
        Block::GearRead => gear_read(address, first, second),
        Block::DevDo => dev_do(address, first, second),
        Block::DevScheme => dev_scheme(address, first, second),
        Block::DevAsk => dev_ask(address, first, second),
    }
}

/// The number at a port, where there is one and it is below 256.
fn byte(port: Option<u32>) -> Option<u8>
    ensures { MatchOption result ((n : ℕ) → n < 256 → port ≢ Some n) (λ n. port ≡ Some n) }
{
    u8::try_from(port?).ok()
}

/// The number at a port, where there is one and it is below the limit.
fn number<Of, const LIMIT: u8>(port: Option<u32>) -> Option<Number<Of, LIMIT>>
    ensures { MatchOption result ((n : ℕ) → n < LIMIT → port ≢ Some n)
        (λ n. (n < LIMIT) × (port ≡ Some n)) }
{
    Number::new(byte(port)?)
}

/// The address of a number.
fn gear(number: u8) -> Option<Address>
    ensures { MatchOption result ((a : To) → IsAddress a → number ≢ address_number a)
        (λ a. IsAddress a × (number ≡ address_number a)) }
{
    Address::from_number(number)
}

/// The event scheme of the number at a port.
fn scheme(port: Option<u32>) -> Option<EventScheme>
    ensures { MatchOption result ((s : Scheme) → port ≢ Some (scheme_number s))
        (λ s. port ≡ Some (scheme_number s)) }
{
    EventScheme::new(byte(port)?)
}

/// What GEAR_LEVEL asks for.
fn gear_level(address: u8, first: Option<u32>, second: Option<u32>) -> Option<Command>
    ensures { MatchOption result (NoneFits address first second is.GearLevel)
        (Fits address first second is.GearLevel) }
{
    if second.is_some() {
        return None;
    }
    Some(Command::GearLevel {
        address: gear(address)?,
        level: byte(first)?,
    })
}

/// What GEAR_DO asks for.
fn gear_do(address: u8, first: Option<u32>, second: Option<u32>) -> Option<Command>
    ensures { MatchOption result (NoneFits address first second is.GearDo)
        (Fits address first second is.GearDo) }
{
    if second.is_some() {
        return None;
    }
    Some(Command::GearDo {
        address: gear(address)?,
        command: number(first)?,
    })
}

/// What GEAR_SET asks for.
fn gear_set(address: u8, first: Option<u32>, second: Option<u32>) -> Option<Command>
    ensures { MatchOption result (NoneFits address first second is.GearSet)
        (Fits address first second is.GearSet) }
{
    Some(Command::GearSet {
        address: gear(address)?,
        command: number(first)?,
        value: byte(second)?,
    })
}

/// What GEAR_PAIR asks for.
fn gear_pair(address: u8, first: Option<u32>, second: Option<u32>) -> Option<Command>
    ensures { MatchOption result (NoneFits address first second is.GearPair)
        (Fits address first second is.GearPair) }
{
    if second.is_some() {
        return None;
    }
    Some(Command::GearPair {
        address: gear(address)?,
        command: number(first)?,
    })
}

/// What GEAR_ASK asks for.
fn gear_ask(address: u8, first: Option<u32>, second: Option<u32>) -> Option<Command>
    ensures { MatchOption result (NoneFits address first second is.GearAsk)
        (Fits address first second is.GearAsk) }
{
    if second.is_some() {
        return None;
    }
    Some(Command::GearAsk {
        address: Number::new(address)?,
        command: number(first)?,
    })
}

/// What GEAR_READ asks for.
fn gear_read(address: u8, first: Option<u32>, second: Option<u32>) -> Option<Command>
    ensures { MatchOption result (NoneFits address first second is.GearRead)
        (Fits address first second is.GearRead) }
{
    Some(Command::GearRead {
        address: Number::new(address)?,
        bank: byte(first)?,
        offset: byte(second)?,
    })
}

/// What DEV_DO asks for.
fn dev_do(address: u8, first: Option<u32>, second: Option<u32>) -> Option<Command>
    ensures { MatchOption result (NoneFits address first second is.DevDo)
        (Fits address first second is.DevDo) }
{
    Some(Command::DevDo {
        address: Number::new(address)?,
        instance: number(first)?,
        command: number(second)?,
    })
}

/// What DEV_SCHEME asks for.
fn dev_scheme(address: u8, first: Option<u32>, second: Option<u32>) -> Option<Command>
    ensures { MatchOption result (NoneFits address first second is.DevScheme)
        (Fits address first second is.DevScheme) }
{
    Some(Command::DevScheme {
        address: Number::new(address)?,
        instance: number(first)?,
        scheme: scheme(second)?,
    })
}

/// What DEV_ASK asks for.
fn dev_ask(address: u8, first: Option<u32>, second: Option<u32>) -> Option<Command>
    ensures { MatchOption result (NoneFits address first second is.DevAsk)
        (Fits address first second is.DevAsk) }
{
    Some(Command::DevAsk {
        address: Number::new(address)?,
        instance: number(first)?,
        command: number(second)?,
    })
}
