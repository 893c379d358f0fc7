//! A bus as lines of a scenario.

use crate::blinking::ACTUAL_LEVEL;
use crate::surveys::{Survey, is_answer, query};
use crate::tables::{PRESENT, answer_in, groups_of, scene_level};
use daliframe::ShortAddress;
use std::io;
use std::io::Write;

/// The level of gear that does not know it.
const NO_LEVEL: u8 = 255;

/// Writes a line of a scenario for each gear that answered: with its level where it is on, its
/// groups, and its levels in scenes.
///
/// # Errors
///
/// The writer failed.
pub(crate) fn write_house<W: Write>(to: &mut W, bus: u8, survey: &Survey) -> io::Result<()> {
    for number in 0..64 {
        if let Some(address) = ShortAddress::new(number) {
            if survey
                .outcome(query(address, PRESENT))
                .is_some_and(is_answer)
            {
                write!(to, "gear {bus} {number}")?;
                write_start(to, survey, address)?;
                writeln!(to)?;
            }
        }
    }
    Ok(())
}

/// Writes how gear begins, which is how it is.
fn write_start<W: Write>(to: &mut W, survey: &Survey, address: ShortAddress) -> io::Result<()> {
    match answer_in(survey.outcome(query(address, ACTUAL_LEVEL))) {
        None | Some(0 | NO_LEVEL) => {}
        Some(level) => write!(to, " level {level}")?,
    }
    let groups = groups_of(survey.asked(), address);
    for group in 0..16u8 {
        if groups >> group & 1 == 1 {
            write!(to, " group {group}")?;
        }
    }
    write_scenes(to, survey, address)
}

/// Writes the levels of gear in scenes, where it has some.
fn write_scenes<W: Write>(to: &mut W, survey: &Survey, address: ShortAddress) -> io::Result<()> {
    for scene in 0..16u8 {
        if let Some(level) = scene_level(survey.asked(), address, scene) {
            write!(to, " scene {scene} {level}")?;
        }
    }
    Ok(())
}
