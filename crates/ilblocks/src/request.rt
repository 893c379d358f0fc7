//! The request of a block's ports.
ghost use Rattle.std.specs.Prelude.{◌≡◌, ◌<◌, ◌≤◌, Some};
ghost use Rattle.gearcmd.specs.Limits.{most_buses};
ghost use Rattle.ilblocks.specs.Calls.{IsBlockOf, natural, address_of, scheme_of};
ghost use Rattle.ilblocks.specs.Calls.{command_of, request_of};

use crate::kind::BlockKind;
use crate::state::BlockState;
use gearcmd::{Address, Command, EventScheme, Number, Request};

/// The number at a port, which is below 256.
fn byte(block: &BlockState, port: usize) -> u8
    requires { natural block.now port < 256 }
    ensures { result ≡ natural block.now port }
{
    block.natural(port) as u8
}

/// The number at a port, which is below the limit.
fn number<Of, const LIMIT: u8>(block: &BlockState, port: usize) -> Number<Of, LIMIT>
    requires { natural block.now port < LIMIT }
    ensures { result ≡ natural block.now port }
{
    match Number::new(byte(block, port)) {
        Some(number) => number,
        None => unreachable!(),
    }
}

/// The address at the port ADR of a block for control gear.
#[tactic(auto, using(crate::proofs::Parts::address_is))]
fn address(block: &BlockState) -> Address
    requires { natural block.now 2 ≤ 80 }
    ensures { Some result ≡ address_of (natural block.now 2) }
{
    match Address::from_number(byte(block, 2)) {
        Some(address) => address,
        None => unreachable!(),
    }
}

/// The event scheme at the port SCHEME.
#[tactic(auto, using(crate::proofs::Parts::scheme_is))]
fn scheme(block: &BlockState) -> EventScheme
    requires { natural block.now 4 < 5 }
    ensures { Some result ≡ scheme_of (natural block.now 4) }
{
    match EventScheme::new(byte(block, 4)) {
        Some(scheme) => scheme,
        None => unreachable!(),
    }
}

/// What GEAR_LEVEL asks for.
fn gear_level(block: &BlockState) -> Command
    requires { IsBlockOf most_buses block.now BlockKind.GearLevel }
    ensures { Some result ≡ command_of BlockKind.GearLevel block.now }
{
    Command::GearLevel {
        address: address(block),
        level: byte(block, 3),
    }
}

/// What GEAR_DO asks for.
fn gear_do(block: &BlockState) -> Command
    requires { IsBlockOf most_buses block.now BlockKind.GearDo }
    ensures { Some result ≡ command_of BlockKind.GearDo block.now }
{
    Command::GearDo {
        address: address(block),
        command: number(block, 3),
    }
}

/// What GEAR_SET asks for.
fn gear_set(block: &BlockState) -> Command
    requires { IsBlockOf most_buses block.now BlockKind.GearSet }
    ensures { Some result ≡ command_of BlockKind.GearSet block.now }
{
    Command::GearSet {
        address: address(block),
        command: number(block, 3),
        value: byte(block, 4),
    }
}

/// What GEAR_PAIR asks for.
fn gear_pair(block: &BlockState) -> Command
    requires { IsBlockOf most_buses block.now BlockKind.GearPair }
    ensures { Some result ≡ command_of BlockKind.GearPair block.now }
{
    Command::GearPair {
        address: address(block),
        command: number(block, 3),
    }
}

/// What GEAR_ASK asks for.
fn gear_ask(block: &BlockState) -> Command
    requires { IsBlockOf most_buses block.now BlockKind.GearAsk }
    ensures { Some result ≡ command_of BlockKind.GearAsk block.now }
{
    Command::GearAsk {
        address: number(block, 2),
        command: number(block, 3),
    }
}

/// What GEAR_READ asks for.
fn gear_read(block: &BlockState) -> Command
    requires { IsBlockOf most_buses block.now BlockKind.GearRead }
    ensures { Some result ≡ command_of BlockKind.GearRead block.now }
{
    Command::GearRead {
        address: number(block, 2),
        bank: byte(block, 3),
        offset: byte(block, 4),
    }
}

/// What DEV_DO asks for.
fn dev_do(block: &BlockState) -> Command
    requires { IsBlockOf most_buses block.now BlockKind.DevDo }
    ensures { Some result ≡ command_of BlockKind.DevDo block.now }
{
    Command::DevDo {
        address: number(block, 2),
        instance: number(block, 3),
        command: number(block, 4),
    }
}

/// What DEV_SCHEME asks for.
fn dev_scheme(block: &BlockState) -> Command
    requires { IsBlockOf most_buses block.now BlockKind.DevScheme }
    ensures { Some result ≡ command_of BlockKind.DevScheme block.now }
{
    Command::DevScheme {
        address: number(block, 2),
        instance: number(block, 3),
        scheme: scheme(block),
    }
}

/// What DEV_ASK asks for.
fn dev_ask(block: &BlockState) -> Command
    requires { IsBlockOf most_buses block.now BlockKind.DevAsk }
    ensures { Some result ≡ command_of BlockKind.DevAsk block.now }
{
    Command::DevAsk {
        address: number(block, 2),
        instance: number(block, 3),
        command: number(block, 4),
    }
}

/// What the block asks for; nothing where its kind makes no requests.
fn command_of(kind: BlockKind, block: &BlockState) -> Option<Command>
    requires { IsBlockOf most_buses block.now kind }
    ensures { result ≡ command_of kind block.now }
{
    Some(match kind {
        BlockKind::RTrig | BlockKind::Ctu | BlockKind::Ton => return None,
        BlockKind::GearLevel => gear_level(block),
        BlockKind::GearDo => gear_do(block),
        BlockKind::GearSet => gear_set(block),
        BlockKind::GearPair => gear_pair(block),
        BlockKind::GearAsk => gear_ask(block),
        BlockKind::GearRead => gear_read(block),
        BlockKind::DevDo => dev_do(block),
        BlockKind::DevScheme => dev_scheme(block),
        BlockKind::DevAsk => dev_ask(block),
    })
}

/// The request of the ports' values; none where the kind makes no requests.
pub(crate) fn request_of(kind: BlockKind, block: &BlockState) -> Option<Request>
    requires { IsBlockOf most_buses block.now kind }
    ensures { result ≡ request_of kind block.now }
{
    let command = command_of(kind, block)?;
    Some(Request {
        bus: number(block, 1),
        command,
    })
}
