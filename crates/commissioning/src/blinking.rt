//! Gear that shows where it is.

ghost use Rattle.std.specs.Prelude.{◌≡◌, ◌<◌, ℕ, IfErr, IfOk, OnOk, MatchOption};
ghost use Rattle.commissioning.specs.Asking.{IsBrokenOff, IsUnanswered};
ghost use Rattle.commissioning.specs.Blinking.{Asks, IsBlink, IsFlash, IsLevel, IsOne, IsShown};
ghost use Rattle.commissioning.specs.Blinking.{IsSomeBlink, IsSomeShown};
ghost use Rattle.commissioning.specs.Surveys.{AreParts};

use crate::asking::{AskFault, ask};
use crate::surveys::query;
use crate::tables::STATUS;
use buslink::{Bus, Outcome, Reply};
use daliframe::{Address, ShortAddress};
use gearcmd::{Command, GearDoCommand};
use std::thread;
use std::time::{Clock as Timer, Duration};

/// QUERY ACTUAL LEVEL among the queries of GEAR_ASK.
pub(crate) const ACTUAL_LEVEL: u8 = 16;

/// RECALL MAX LEVEL among the commands of GEAR_DO.
const RECALL_MAX_LEVEL: u8 = 5;

/// OFF among the commands of GEAR_DO.
const OFF: u8 = 0;

/// How often gear flashes.
const FLASHES: u8 = 3;

/// The milliseconds at each level.
const HALF_A_SECOND: u64 = 500;

/// What became of gear that was to blink.
#[derive(Clone, Copy, PartialEq, Eq)]
pub enum Blinked {
    /// It blinked, and its level from before, 0 to 254, was sent last, which ended so.
    Back(u8, Outcome),
    /// It did not give a level, so that nothing else was sent.
    NoLevel(Outcome),
}

/// What gear said and did that was to show where it is.
#[derive(Clone, Copy, PartialEq, Eq)]
pub struct Shown {
    /// How the query for its status ended.
    pub status: Outcome,
    /// What became of its blinking.
    pub blinked: Blinked,
}

/// Asks gear for its status, sends it three times to its greatest level and off, with half a second
/// at each, and then back to the level that it had before. Gear that does not give its level is
/// sent nothing more.
///
/// # Errors
///
/// The allocator is out of memory, or the interface failed at the last command; what was sent then
/// is the beginning of this, and the gear may not be back at its level.
pub fn blink<B: Bus, R: Timer>(
    bus: &mut B,
    address: ShortAddress,
    timer: &R,
) -> Result<Shown, AskFault>
    ensures shown { IfOk result
        (λ shown. Asks (IsShown address shown) (B.log bus.old) (B.log bus.new)) }
    ensures fault { IfErr result
        (λ fault. IsBrokenOff (IsSomeShown address) fault (B.log bus.old) (B.log bus.new)) }
{
    let status = outcome_of(bus, query(address, STATUS))?;
    let blinked = flash_and_return(bus, address, timer)?;
    Ok(Shown { status, blinked })
}

/// Lets gear blink and go back to the level that it had before.
fn flash_and_return<B: Bus, R: Timer>(
    bus: &mut B,
    address: ShortAddress,
    timer: &R,
) -> Result<Blinked, AskFault>
    ensures blinked { IfOk result
        (λ blinked. Asks (IsBlink address blinked) (B.log bus.old) (B.log bus.new)) }
    ensures fault { IfErr result
        (λ fault. IsBrokenOff (IsSomeBlink address) fault (B.log bus.old) (B.log bus.new)) }
{
    let outcome = outcome_of(bus, query(address, ACTUAL_LEVEL))?;
    let Some(level) = level_in(outcome) else {
        return Ok(Blinked::NoLevel(outcome));
    };
    flash_thrice(bus, address, timer)?;
    let back = Command::GearLevel {
        address: Address::Short(address),
        level,
    };
    Ok(Blinked::Back(level, outcome_of(bus, back)?))
}

/// The level that is answered, where it can be sent again.
fn level_in(outcome: Outcome) -> Option<u8>
    ensures { MatchOption result ((level : ℕ) → ¬ IsLevel outcome level) (IsLevel outcome) }
{
    match outcome {
        Outcome::Done(Reply::Answer(level)) if level < 255 => Some(level),
        _ => None,
    }
}

/// Sends gear three times to its greatest level and off.
fn flash_thrice<B: Bus, R: Timer>(
    bus: &mut B,
    address: ShortAddress,
    timer: &R,
) -> Result<(), AskFault>
    ensures flashes { OnOk result (Asks (AreParts (λ time. IsFlash address) 3)
        (B.log bus.old) (B.log bus.new)) }
    ensures fault { IfErr result
        (λ fault. IsBrokenOff (AreParts (λ time. IsFlash address) 3) fault
        (B.log bus.old) (B.log bus.new)) }
{
    for _time in 0..FLASHES {
        flash(bus, address, timer)?;
    }
    Ok(())
}

/// Sends gear to its greatest level, and then off.
fn flash<B: Bus, R: Timer>(bus: &mut B, address: ShortAddress, timer: &R) -> Result<(), AskFault>
    ensures flash { OnOk result (Asks (IsFlash address) (B.log bus.old) (B.log bus.new)) }
    ensures fault { IfErr result
        (λ fault. IsBrokenOff (IsFlash address) fault (B.log bus.old) (B.log bus.new)) }
{
    let half = Duration::from_millis(HALF_A_SECOND);
    outcome_of(bus, change(address, RECALL_MAX_LEVEL))?;
    thread::sleep(timer, half);
    outcome_of(bus, change(address, OFF))?;
    thread::sleep(timer, half);
    Ok(())
}

/// A change of the level of gear, 0 to 25 as GEAR_DO has them.
fn change(address: ShortAddress, number: u8) -> Command
    requires { number < 26 }
    ensures { result ≡ Command.GearDo (Address.Short address) number }
{
    match GearDoCommand::new(number) {
        Some(command) => Command::GearDo {
            address: Address::Short(address),
            command,
        },
        None => unreachable!(),
    }
}

/// Asks a command; how it ended.
fn outcome_of<B: Bus>(bus: &mut B, command: Command) -> Result<Outcome, AskFault>
    ensures one { IfOk result
        (λ outcome. Asks (IsOne command outcome) (B.log bus.old) (B.log bus.new)) }
    ensures fault { IfErr result
        (λ fault. IsUnanswered command fault (B.log bus.old) (B.log bus.new)) }
{
    let report = ask(bus, command)?;
    Ok(report.outcome())
}
