//! What was found on a bus as JSON: one object on one line, whose member `version` is 1.

use crate::asking::AskFault;
use crate::blinking::ACTUAL_LEVEL;
use crate::comparing::write_differences;
use crate::declared::DeclaredBus;
use crate::probing::Probed;
use crate::surveys::{Survey, instance_query, is_answer, query};
use crate::tables::{
    DEVICE_TYPE, EVENT_SCHEME, FADE_TIME, INSTANCE_TYPE, MAX_LEVEL, MIN_LEVEL, POWER_ON_LEVEL,
    PRESENT, STATUS, answer_in, groups_of, scene_level,
};
use buslink::Outcome;
use daliframe::{EventScheme, InstanceNumber, ShortAddress};
use daliwords::SchemeWords;
use gearcmd::Command;
use std::alloc::Global;
use std::io::Write;
use std::{fmt, io};

/// The fade times by their numbers, in milliseconds (IEC 62386-102, clause 9).
const FADE_MILLIS: &[u32] = &[
    0, 700, 1_000, 1_400, 2_000, 2_800, 4_000, 5_700, 8_000, 11_300, 16_000, 22_600, 32_000,
    45_300, 64_000, 90_500,
];

/// Writes what was found on a bus, and where a text is given how it differs from what that
/// declares.
///
/// # Errors
///
/// The writer failed, or the allocator is out of memory.
pub(crate) fn write_found<W: Write>(
    alloc: Global,
    to: &mut W,
    bus: u8,
    probed: &Probed,
    declared: Option<DeclaredBus>,
) -> io::Result<()> {
    write!(to, "{{\"version\":1,\"bus\":{bus},\"gear\":[")?;
    write_all_gear(to, &probed.survey)?;
    write!(to, "],\"lost\":[")?;
    write_lost(to, &probed.survey)?;
    write!(to, "],\"instances\":[")?;
    write_instances(to, &probed.survey)?;
    let unaddressed = truth_of(probed.unaddressed);
    write!(to, "],\"unaddressed\":{unaddressed}")?;
    if let Some(declared) = declared {
        write_compared(alloc, to, &probed.survey, declared)?;
    }
    writeln!(to, "}}")
}

/// Writes why nothing is known of a bus.
///
/// # Errors
///
/// The writer failed.
pub(crate) fn write_failure<W: Write>(to: &mut W, fault: AskFault) -> io::Result<()> {
    writeln!(to, "{{\"version\":1,\"fault\":\"{fault}\"}}")
}

/// Whether something answered, where that is known.
fn truth_of(outcome: Outcome) -> &'static str {
    match outcome {
        Outcome::GaveUp | Outcome::Failed => "null",
        _ if is_answer(outcome) => "true",
        _ => "false",
    }
}

/// A number, or `null` where none is known.
#[derive(Clone, Copy)]
struct Known(Option<u32>);

impl fmt::Display for Known {
    fn fmt<W: fmt::Write>(&self, f: &mut fmt::Formatter<W>) -> fmt::Result {
        match self.0 {
            Some(number) => write!(f, "{number}"),
            None => f.write_str("null"),
        }
    }
}

/// What was answered to a command.
fn answered(survey: &Survey, command: Command) -> Known {
    match answer_in(survey.outcome(command)) {
        Some(byte) => Known(Some(u32::from(byte))),
        None => Known(None),
    }
}

/// Writes each gear that is there.
fn write_all_gear<W: Write>(to: &mut W, survey: &Survey) -> io::Result<()> {
    let mut comma = "";
    for number in 0..64 {
        if let Some(address) = ShortAddress::new(number) {
            if survey
                .outcome(query(address, PRESENT))
                .is_some_and(is_answer)
            {
                write!(to, "{comma}{{\"address\":{number}")?;
                write_levels(to, survey, address)?;
                write_settings(to, survey, address)?;
                write_groups(to, survey, address)?;
                write_scenes(to, survey, address)?;
                write!(to, "}}")?;
                comma = ",";
            }
        }
    }
    Ok(())
}

/// Writes the status and the levels of gear.
fn write_levels<W: Write>(to: &mut W, survey: &Survey, address: ShortAddress) -> io::Result<()> {
    let status = answered(survey, query(address, STATUS));
    let level = answered(survey, query(address, ACTUAL_LEVEL));
    let least = answered(survey, query(address, MIN_LEVEL));
    let most = answered(survey, query(address, MAX_LEVEL));
    write!(to, ",\"status\":{status},\"level\":{level}")?;
    write!(to, ",\"min_level\":{least},\"max_level\":{most}")
}

/// Writes the level at power on, the device type and the fade time of gear.
fn write_settings<W: Write>(to: &mut W, survey: &Survey, address: ShortAddress) -> io::Result<()> {
    let power_on = answered(survey, query(address, POWER_ON_LEVEL));
    let kind = answered(survey, query(address, DEVICE_TYPE));
    let fade = fade_time(survey, address);
    write!(to, ",\"power_on_level\":{power_on},\"device_type\":{kind}")?;
    write!(to, ",\"fade_time_ms\":{fade}")
}

/// The fade time of gear, in milliseconds: the number of it is the upper half of what was answered.
fn fade_time(survey: &Survey, address: ShortAddress) -> Known {
    match answer_in(survey.outcome(query(address, FADE_TIME))) {
        Some(byte) => Known(FADE_MILLIS.get(usize::from(byte >> 4)).copied()),
        None => Known(None),
    }
}

/// Writes the groups of gear.
fn write_groups<W: Write>(to: &mut W, survey: &Survey, address: ShortAddress) -> io::Result<()> {
    write!(to, ",\"groups\":[")?;
    let groups = groups_of(survey.asked(), address);
    let mut comma = "";
    for group in 0..16u8 {
        if groups >> group & 1 == 1 {
            write!(to, "{comma}{group}")?;
            comma = ",";
        }
    }
    write!(to, "]")
}

/// Writes the levels of gear in scenes, where it has some.
fn write_scenes<W: Write>(to: &mut W, survey: &Survey, address: ShortAddress) -> io::Result<()> {
    write!(to, ",\"scenes\":[")?;
    let mut comma = "";
    for scene in 0..16u8 {
        if let Some(level) = scene_level(survey.asked(), address, scene) {
            write!(to, "{comma}{{\"scene\":{scene},\"level\":{level}}}")?;
            comma = ",";
        }
    }
    write!(to, "]")
}

/// Writes the addresses of gear of which nothing is known, since each frame was lost.
fn write_lost<W: Write>(to: &mut W, survey: &Survey) -> io::Result<()> {
    let mut comma = "";
    for number in 0..64 {
        if let Some(address) = ShortAddress::new(number) {
            if survey.outcome(query(address, PRESENT)) == Some(Outcome::GaveUp) {
                write!(to, "{comma}{number}")?;
                comma = ",";
            }
        }
    }
    Ok(())
}

/// Writes each instance that is there.
fn write_instances<W: Write>(to: &mut W, survey: &Survey) -> io::Result<()> {
    let mut comma = "";
    for number in 0..64 {
        if let Some(address) = ShortAddress::new(number) {
            if write_device(to, survey, address, comma)? {
                comma = ",";
            }
        }
    }
    Ok(())
}

/// Writes each instance of a device that is there, the first behind a comma or none; whether any
/// is.
fn write_device<W: Write>(
    to: &mut W,
    survey: &Survey,
    address: ShortAddress,
    comma: &'static str,
) -> io::Result<bool> {
    let mut before = comma;
    let mut is_any = false;
    for number in 0..32 {
        if let Some(instance) = InstanceNumber::new(number) {
            let kind = instance_query(address, instance, INSTANCE_TYPE);
            if survey.outcome(kind).is_some_and(is_answer) {
                write!(to, "{before}")?;
                write_instance(to, survey, address, instance)?;
                before = ",";
                is_any = true;
            }
        }
    }
    Ok(is_any)
}

/// Writes an instance with its type and its event scheme.
fn write_instance<W: Write>(
    to: &mut W,
    survey: &Survey,
    address: ShortAddress,
    instance: InstanceNumber,
) -> io::Result<()> {
    let device = address.number();
    let number = instance.number();
    let kind = answered(survey, instance_query(address, instance, INSTANCE_TYPE));
    write!(
        to,
        "{{\"device\":{device},\"instance\":{number},\"type\":{kind}"
    )?;
    let scheme = answer_in(survey.outcome(instance_query(address, instance, EVENT_SCHEME)));
    match scheme.and_then(EventScheme::new) {
        Some(scheme) => write!(to, ",\"scheme\":\"{}\"}}", SchemeWords(scheme)),
        None => write!(to, ",\"scheme\":null}}"),
    }
}

/// Writes how a bus differs from what a text declares, a line each.
fn write_compared<W: Write>(
    alloc: Global,
    to: &mut W,
    survey: &Survey,
    declared: DeclaredBus,
) -> io::Result<()> {
    let mut lines = Vec::new(alloc);
    write_differences(&mut lines, survey, declared)?;
    write!(to, ",\"differences\":[")?;
    let mut is_first = true;
    for line in str::from_utf8(&lines).unwrap_or("").lines() {
        if !is_first {
            write!(to, ",")?;
        }
        is_first = false;
        write!(to, "\"{line}\"")?;
    }
    write!(to, "]")
}
