//! A survey of one bus: which gear and which instances of devices are there, and what they are.

ghost use Rattle.std.specs.Prelude.{◌≡◌, ◌<◌, ◌↔◌, ⊤, true, IsTrue, IfErr, IfOk, OnOk, MatchOption};
ghost use Rattle.std.specs.Prelude.{All};
ghost use Rattle.gearcmd.specs.declared.requests.Command.TheVariants.{GearAsk, DevAsk};
ghost use Rattle.commissioning.specs.Asking.{AreAnswered, IsBrokenOff};
ghost use Rattle.commissioning.specs.Surveys.{AreParts, AsksMore, IsQueryPart, IsGearPart};
ghost use Rattle.commissioning.specs.Surveys.{IsFirstOf, IsInstancePart, IsDevicePart, IsQuestion};
ghost use Rattle.commissioning.specs.Surveys.{IsSomeInstancePart, IsSomeQuestion, IsSurvey};
ghost use Rattle.commissioning.specs.Surveys.{is_answer, is_surveyed};

use crate::asking::{AskFault, Asked, ask};
use crate::tables::Table;
use buslink::{Bus, Outcome, Reply};
use daliframe::{InstanceNumber, ShortAddress};
use gearcmd::{Command, DevAskCommand, GearAskCommand};
use std::alloc::Global;
use std::io::Write;
use std::marker::Model;

/// What was asked on a bus, in order, and how each question ended.
#[derive(Drop)]
pub struct Survey {
    asked: Vec<Asked>,
}

impl Model for Survey {
    ghost use Rattle.std.specs.Prelude.{List};
    ghost use Rattle.commissioning.specs.declared.asking.Asked.{Asked};

    ghost Value = { List Asked };

    ghost view = { λ s. s.asked.items };
}

impl Survey {
    /// How a command ended that was asked: the first time that it was.
    pub fn outcome(&self, command: Command) -> Option<Outcome>
        ensures { MatchOption result (All (λ a. ¬ (a.command ≡ command)) self.now)
            (λ outcome. IsFirstOf command (record { command = command; outcome = outcome })
            self.now) }
    {
        outcome_in(&self.asked, command)
    }

    /// What was asked, in order, and how each question ended.
    pub(crate) fn asked(&self) -> &[Asked]
        ensures { result.now ≡ self.now }
    {
        self.asked.as_slice()
    }
}

/// How a command ended that was asked: the first time that it was.
pub(crate) fn outcome_in(asked: &[Asked], command: Command) -> Option<Outcome>
    ensures { MatchOption result (All (λ a. ¬ (a.command ≡ command)) asked.now)
        (λ outcome. IsFirstOf command (record { command = command; outcome = outcome })
        asked.now) }
{
    let found = asked_of(asked, command)?;
    Some(found.outcome)
}

/// The first of these that asked this command.
fn asked_of(asked: &[Asked], command: Command) -> Option<&Asked>
    ensures { MatchOption result (All (λ a. ¬ (a.command ≡ command)) asked.now)
        (λ found. IsFirstOf command found.now asked.now) }
{
    asked.iter().find(|one| one.is_of(&command))
}

/// Asks each short address of a bus whether gear is there, and gear that is there for its status,
/// its device type, its levels, its fade time, its groups and its scenes; and then each device for
/// the type and the scheme of its instances, from 0 on until one is silent. What is there goes to
/// the table at once, and how far it is to `progress`; whether they take it changes nothing.
///
/// # Errors
///
/// The allocator is out of memory, or the interface failed at the last question. What was asked
/// then is the beginning of a survey.
pub fn make_survey<B: Bus, W: Write, P: Write>(
    alloc: Global,
    bus: &mut B,
    table: &mut Table<W>,
    progress: &mut P,
) -> Result<Survey, AskFault>
    ensures survey { IfOk result (λ survey. IsSurvey survey
        × AreAnswered survey (B.log bus.old) (B.log bus.new)) }
    ensures fault { IfErr result
        (λ fault. IsBrokenOff IsSurvey fault (B.log bus.old) (B.log bus.new)) }
{
    let mut asked = Vec::new(alloc);
    ask_all_gear(bus, &mut asked, table, progress)?;
    ask_all_devices(bus, &mut asked, table, progress)?;
    Ok(Survey { asked })
}

/// Asks the gear of each short address.
fn ask_all_gear<B: Bus, W: Write, P: Write>(
    bus: &mut B,
    asked: &mut Vec<Asked>,
    table: &mut Table<W>,
    progress: &mut P,
) -> Result<(), AskFault>
    ensures more { OnOk result (AsksMore (AreParts IsGearPart 64) asked.old.items asked.new.items
        (B.log bus.old) (B.log bus.new)) }
    ensures fault { IfErr result
        (λ fault. IsBrokenOff (AreParts IsGearPart 64) fault (B.log bus.old) (B.log bus.new)) }
{
    table.begin_gear();
    for number in 0..64 {
        let Some(address) = ShortAddress::new(number) else {
            unreachable!()
        };
        tell_progress(progress, "gear", number);
        ask_gear(bus, address, asked)?;
        table.add_gear(asked.as_slice(), address);
    }
    Ok(())
}

/// Asks the device of each short address.
fn ask_all_devices<B: Bus, W: Write, P: Write>(
    bus: &mut B,
    asked: &mut Vec<Asked>,
    table: &mut Table<W>,
    progress: &mut P,
) -> Result<(), AskFault>
    ensures more { OnOk result (AsksMore (AreParts IsDevicePart 64) asked.old.items asked.new.items
        (B.log bus.old) (B.log bus.new)) }
    ensures fault { IfErr result
        (λ fault. IsBrokenOff (AreParts IsDevicePart 64) fault (B.log bus.old) (B.log bus.new)) }
{
    table.begin_devices();
    for number in 0..64 {
        let Some(address) = ShortAddress::new(number) else {
            unreachable!()
        };
        tell_progress(progress, "device", number);
        ask_device(bus, address, asked)?;
        table.add_device(asked.as_slice(), address);
    }
    Ok(())
}

/// Tells, at each eighth address, how far it is. Whether it can be told changes nothing.
fn tell_progress<P: Write>(progress: &mut P, what: &str, number: u8) {
    if number.is_multiple_of(8) {
        let last = number.saturating_add(7);
        let _told = writeln!(progress, "asking {what} {number} to {last}");
    }
}

/// Asks whether gear is at an address, and gear that is there what it is.
fn ask_gear<B: Bus>(
    bus: &mut B,
    address: ShortAddress,
    asked: &mut Vec<Asked>,
) -> Result<(), AskFault>
    ensures more { OnOk result (AsksMore (IsGearPart address) asked.old.items asked.new.items
        (B.log bus.old) (B.log bus.new)) }
    ensures fault { IfErr result
        (λ fault. IsBrokenOff (IsGearPart address) fault (B.log bus.old) (B.log bus.new)) }
{
    let outcome = ask_one(bus, query(address, 1), asked)?;
    if is_answer(outcome) {
        ask_queries(bus, address, asked)?;
    }
    Ok(())
}

/// Asks gear for its status, its device type, its levels, its fade time, its scenes and its groups.
fn ask_queries<B: Bus>(
    bus: &mut B,
    address: ShortAddress,
    asked: &mut Vec<Asked>,
) -> Result<(), AskFault>
    ensures more { OnOk result (AsksMore (AreParts (IsQueryPart address) 43)
        asked.old.items asked.new.items (B.log bus.old) (B.log bus.new)) }
    ensures fault { IfErr result
        (λ fault. IsBrokenOff (AreParts (IsQueryPart address) 43) fault
        (B.log bus.old) (B.log bus.new)) }
{
    for number in 0..43 {
        if is_surveyed(number) {
            ask_one(bus, query(address, number), asked)?;
        }
    }
    Ok(())
}

/// Asks the instances of a device, from 0 on until one is silent.
fn ask_device<B: Bus>(
    bus: &mut B,
    address: ShortAddress,
    asked: &mut Vec<Asked>,
) -> Result<(), AskFault>
    ensures more { OnOk result (AsksMore (IsDevicePart address) asked.old.items asked.new.items
        (B.log bus.old) (B.log bus.new)) }
    ensures fault { IfErr result
        (λ fault. IsBrokenOff (IsDevicePart address) fault (B.log bus.old) (B.log bus.new)) }
{
    for number in 0..32 {
        let Some(instance) = InstanceNumber::new(number) else {
            unreachable!()
        };
        if !ask_instance(bus, address, instance, asked)? {
            return Ok(());
        }
    }
    Ok(())
}

/// Asks an instance for its type, and where it is there for its scheme; whether it is there.
fn ask_instance<B: Bus>(
    bus: &mut B,
    address: ShortAddress,
    instance: InstanceNumber,
    asked: &mut Vec<Asked>,
) -> Result<bool, AskFault>
    ensures more { IfOk result (λ there. AsksMore (IsInstancePart address there instance)
        asked.old.items asked.new.items (B.log bus.old) (B.log bus.new)) }
    ensures fault { IfErr result
        (λ fault. IsBrokenOff (IsSomeInstancePart address instance) fault
        (B.log bus.old) (B.log bus.new)) }
{
    let outcome = ask_one(bus, instance_query(address, instance, 0), asked)?;
    let is_there = is_answer(outcome);
    if is_there {
        ask_one(bus, instance_query(address, instance, 1), asked)?;
    }
    Ok(is_there)
}

/// Asks a command, and notes how it ended.
fn ask_one<B: Bus>(
    bus: &mut B,
    command: Command,
    asked: &mut Vec<Asked>,
) -> Result<Outcome, AskFault>
    ensures more { IfOk result (λ outcome. AsksMore (IsQuestion command outcome)
        asked.old.items asked.new.items (B.log bus.old) (B.log bus.new)) }
    ensures fault { IfErr result
        (λ fault. IsBrokenOff (IsSomeQuestion command) fault (B.log bus.old) (B.log bus.new)) }
{
    let outcome = ask(bus, command)?.outcome();
    match asked.push(Asked { command, outcome }) {
        Ok(()) => Ok(outcome),
        Err(_) => Err(AskFault::Memory),
    }
}

/// Whether something answered: two at once are damage.
pub(crate) fn is_answer(outcome: Outcome) -> bool
    ensures { result ≡ is_answer outcome }
{
    matches!(outcome, Outcome::Done(Reply::Answer(_) | Reply::Damaged))
}

/// Whether gear is asked this query: for its status, its device type, its levels, its fade time,
/// its scenes and its groups.
fn is_surveyed(number: u8) -> bool
    ensures { result ≡ is_surveyed number }
{
    matches!(number, 0 | 9 | 16..=19 | 21 | 25..=42)
}

/// A query to gear, 0 to 42 as GEAR_ASK has them.
pub(crate) fn query(address: ShortAddress, number: u8) -> Command
    requires { number < 43 }
    ensures { result ≡ GearAsk address number }
{
    match GearAskCommand::new(number) {
        Some(command) => Command::GearAsk { address, command },
        None => unreachable!(),
    }
}

/// A query to an instance of a device, 0 to 2 as DEV_ASK has them.
pub(crate) fn instance_query(address: ShortAddress, instance: InstanceNumber, number: u8) -> Command
    requires { number < 3 }
    ensures { result ≡ DevAsk address instance number }
{
    match DevAskCommand::new(number) {
        Some(command) => Command::DevAsk {
            address,
            instance,
            command,
        },
        None => unreachable!(),
    }
}
