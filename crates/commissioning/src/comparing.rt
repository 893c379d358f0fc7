//! What is there on a bus, beside what a text declares there.

ghost use Rattle.std.specs.Prelude.{◌≡◌, ◌<◌, ◌&&◌, OnOk};
ghost use Rattle.std.specs.Io.KnownBytes.{Appends};
ghost use Rattle.gearcmd.specs.declared.requests.Command.TheVariants.{GearAsk};
ghost use Rattle.commissioning.specs.Differences.{any_below, declares_group, device_difference};
ghost use Rattle.commissioning.specs.Differences.{device_lines, difference_lines, gear_difference};
ghost use Rattle.commissioning.specs.Differences.{group_difference, has_gear, has_instance};
ghost use Rattle.commissioning.specs.Differences.{instance_difference, is_in_declared_group};
ghost use Rattle.commissioning.specs.Differences.{first_level, is_in_group, level_difference};
ghost use Rattle.commissioning.specs.Differences.{answer_of, line_of, lines_below};

use crate::asked::{answer_to, is_answered};
use crate::blinking::ACTUAL_LEVEL;
use crate::declared::DeclaredBus;
use crate::differences::{Difference, Levels, Member};
use crate::surveys::{Survey, instance_query, query};
use crate::tables::{INSTANCE_TYPE, PRESENT};
use daliframe::{InstanceNumber, ShortAddress};
use std::io;
use std::io::Write;

/// QUERY GROUPS 0-7, which QUERY GROUPS 8-15 follows.
const GROUPS: u8 = 41;

/// Writes what of a text is silent, what is there and is not in the text, each level that is
/// another than the text first sends, and each group of the text in which no gear is, a line each.
///
/// # Errors
///
/// The writer failed.
pub fn write_differences<W: Write>(
    to: &mut W,
    survey: &Survey,
    declared: DeclaredBus,
) -> io::Result<()>
    ensures { OnOk result (Appends (W.contents to.old) (W.contents to.new)
        (difference_lines survey.now declared.entry.plan.now declared.entry.bus)) }
{
    compare_all_gear(to, survey, declared)?;
    compare_groups(to, survey, declared)?;
    compare_devices(to, survey, declared)
}

/// Writes how the gear of each short address differs.
fn compare_all_gear<W: Write>(to: &mut W, survey: &Survey, declared: DeclaredBus) -> io::Result<()>
    ensures { OnOk result (Appends (W.contents to.old) (W.contents to.new)
        (lines_below (λ gear. line_of
        (gear_difference survey.now declared.entry.plan.now declared.entry.bus gear)) 64)) }
{
    for number in 0..64 {
        let Some(address) = ShortAddress::new(number) else {
            unreachable!()
        };
        write_difference(to, gear_difference(survey, declared, address))?;
    }
    Ok(())
}

/// Writes which groups of the text have no gear.
fn compare_groups<W: Write>(to: &mut W, survey: &Survey, declared: DeclaredBus) -> io::Result<()>
    ensures { OnOk result (Appends (W.contents to.old) (W.contents to.new)
        (lines_below (λ group. line_of
        (group_difference survey.now declared.entry.plan.now declared.entry.bus group)) 16)) }
{
    for group in 0..16 {
        write_difference(to, group_difference(survey, declared, group))?;
    }
    Ok(())
}

/// Writes how the device of each short address and its instances differ.
fn compare_devices<W: Write>(to: &mut W, survey: &Survey, declared: DeclaredBus) -> io::Result<()>
    ensures { OnOk result (Appends (W.contents to.old) (W.contents to.new)
        (lines_below
        (device_lines survey.now declared.entry.plan.now declared.entry.bus) 64)) }
{
    for number in 0..64 {
        let Some(address) = ShortAddress::new(number) else {
            unreachable!()
        };
        write_difference(to, device_difference(survey, declared, address))?;
        compare_instances(to, survey, declared, address)?;
    }
    Ok(())
}

/// Writes which instances of a device differ.
fn compare_instances<W: Write>(
    to: &mut W,
    survey: &Survey,
    declared: DeclaredBus,
    address: ShortAddress,
) -> io::Result<()>
    ensures { OnOk result (Appends (W.contents to.old) (W.contents to.new)
        (lines_below (λ instance. line_of
        (instance_difference survey.now declared.entry.plan.now declared.entry.bus
        address instance)) 32)) }
{
    for number in 0..32 {
        let Some(instance) = InstanceNumber::new(number) else {
            unreachable!()
        };
        write_difference(to, instance_difference(survey, declared, address, instance))?;
    }
    Ok(())
}

/// Writes a difference on a line, where there is one.
fn write_difference<W: Write>(to: &mut W, difference: Option<Difference>) -> io::Result<()>
    ensures { OnOk result
        (Appends (W.contents to.old) (W.contents to.new) (line_of difference)) }
{
    match difference {
        Some(difference) => writeln!(to, "{difference}"),
        None => Ok(()),
    }
}

/// How gear differs from what the text says of it.
fn gear_difference(
    survey: &Survey,
    declared: DeclaredBus,
    address: ShortAddress,
) -> Option<Difference>
    ensures { result ≡ gear_difference survey.now declared.entry.plan.now declared.entry.bus
        address }
{
    let gear = Member::Gear(address.number());
    match (
        declared.has_gear(address.number()),
        has_gear(survey, address),
    ) {
        (true, true) => level_difference(survey, declared, address),
        (true, false) => Some(Difference::Silent(gear)),
        (false, true) if !is_in_declared_group(survey, declared, address) => {
            Some(Difference::Undeclared(gear))
        }
        (false, _) => None,
    }
}

/// The level of gear, where it is another one than the text first sends.
fn level_difference(
    survey: &Survey,
    declared: DeclaredBus,
    address: ShortAddress,
) -> Option<Difference>
    ensures { result ≡ level_difference address
        (answer_of (GearAsk address 16) survey.now)
        (first_level declared.entry.plan.now declared.entry.bus address) }
{
    let level = answer_to(survey.asked(), query(address, ACTUAL_LEVEL))?;
    let first = declared.first_level(address.number())?;
    if level == first {
        return None;
    }
    Some(Difference::OtherLevel {
        gear: address.number(),
        levels: Levels { level, first },
    })
}

/// A group of the text in which no gear is.
fn group_difference(survey: &Survey, declared: DeclaredBus, group: u8) -> Option<Difference>
    requires { group < 16 }
    ensures { result ≡ group_difference survey.now declared.entry.plan.now declared.entry.bus
        group }
{
    if declared.has_group(group) && !has_gear_in(survey, group) {
        return Some(Difference::Empty(group));
    }
    None
}

/// Whether gear is in a group of the text.
fn is_in_declared_group(survey: &Survey, declared: DeclaredBus, address: ShortAddress) -> bool
    ensures { result ≡ is_in_declared_group survey.now declared.entry.plan.now
        declared.entry.bus address }
{
    for group in 0..16 {
        if is_in_this_group(survey, declared, group, address) {
            return true;
        }
    }
    false
}

/// Whether the text has this group, and gear is in it.
fn is_in_this_group(
    survey: &Survey,
    declared: DeclaredBus,
    group: u8,
    address: ShortAddress,
) -> bool
    requires { group < 16 }
    ensures { result ≡ (declares_group declared.entry.plan.now declared.entry.bus group
        && is_in_group survey.now group address) }
{
    declared.has_group(group) && is_in_group(survey, group, address)
}

/// Whether there is gear in a group.
fn has_gear_in(survey: &Survey, group: u8) -> bool
    requires { group < 16 }
    ensures { result ≡ any_below (is_in_group survey.now group) 64 }
{
    for number in 0..64 {
        let Some(address) = ShortAddress::new(number) else {
            unreachable!()
        };
        if is_in_group(survey, group, address) {
            return true;
        }
    }
    false
}

/// Whether gear is in a group.
fn is_in_group(survey: &Survey, group: u8, address: ShortAddress) -> bool
    requires { group < 16 }
    ensures { result ≡ is_in_group survey.now group address }
{
    match answer_to(survey.asked(), query(address, GROUPS + group / 8)) {
        Some(byte) => byte >> (group % 8) & 1 == 1,
        None => false,
    }
}

/// How a device differs from what the text and the binding say of it.
fn device_difference(
    survey: &Survey,
    declared: DeclaredBus,
    address: ShortAddress,
) -> Option<Difference>
    ensures { result ≡ device_difference survey.now declared.entry.plan.now declared.entry.bus
        address }
{
    let device = Member::Device(address.number());
    let is_there = has_first_instance(survey, address);
    match (declared.has_device(address.number()), is_there) {
        (true, false) => Some(Difference::Silent(device)),
        (false, true) => Some(Difference::Undeclared(device)),
        _ => None,
    }
}

/// How an instance of a device that is there differs from what the binding says of it.
fn instance_difference(
    survey: &Survey,
    declared: DeclaredBus,
    address: ShortAddress,
    instance: InstanceNumber,
) -> Option<Difference>
    ensures { result ≡ instance_difference survey.now declared.entry.plan.now
        declared.entry.bus address instance }
{
    let device = address.number();
    let number = instance.number();
    if declared.has_instance(device, number)
        && has_first_instance(survey, address)
        && !has_instance(survey, address, instance)
    {
        return Some(Difference::Silent(Member::Instance {
            device,
            instance: number,
        }));
    }
    None
}

/// Whether gear is there.
fn has_gear(survey: &Survey, address: ShortAddress) -> bool
    ensures { result ≡ has_gear survey.now address }
{
    is_answered(survey.asked(), query(address, PRESENT))
}

/// Whether the first instance of a device is there, and so the device.
fn has_first_instance(survey: &Survey, address: ShortAddress) -> bool
    ensures { result ≡ has_instance survey.now address 0 }
{
    match InstanceNumber::new(0) {
        Some(instance) => has_instance(survey, address, instance),
        None => unreachable!(),
    }
}

/// Whether an instance of a device is there.
fn has_instance(survey: &Survey, address: ShortAddress, instance: InstanceNumber) -> bool
    ensures { result ≡ has_instance survey.now address instance }
{
    is_answered(
        survey.asked(),
        instance_query(address, instance, INSTANCE_TYPE),
    )
}
