//! What has a level: the rows of lamps, and the levels of control gear.

use crate::drawing::Drawing;
use crate::parts::{Kind, Sign};
use buslink::{Outcome, Report};
use daliframe::{Fields16, Frame, ShortAddress};
use ilplan::{Location, Plan};
use simbus::{Scenario, SimBus, Statement};
use std::alloc::{AllocError, Global};

/// What has a level: a lamp, a group, or all lamps of a bus.
#[derive(Clone, Copy, PartialEq, Eq)]
pub(crate) struct Lamp {
    pub bus: u8,
    /// A short address 0 to 63, a group 64 to 79, or all lamps: 80.
    pub address: u8,
}

impl Drawing {
    /// Adds a row for each level that the text declares, in its order, behind that of a group also
    /// for the control gear that begins in it, and then for the other control gear of the scenario.
    /// Gear of which the text declares a level has the row of that.
    pub(crate) fn add_lamps(&mut self, plan: &Plan, scenario: &Scenario) -> Result<(), AllocError> {
        for number in 0..plan.globals() {
            if let Some(Location::Level { bus, address }) = plan.global(number).location {
                let lamp = Lamp { bus, address };
                let name = plan.global_name(number).to_string(self.alloc)?;
                self.add_lamp(lamp, name, scenario)?;
                if 64 <= address && address < 80 {
                    self.add_gear(plan, scenario, Some(lamp))?;
                }
            }
        }
        self.add_gear(plan, scenario, None)
    }

    /// Adds a row for each control gear of the scenario, or of a group of it, that has none and of
    /// which the text declares no level.
    fn add_gear(
        &mut self,
        plan: &Plan,
        scenario: &Scenario,
        group: Option<Lamp>,
    ) -> Result<(), AllocError> {
        for statement in scenario.lines() {
            if let Some(lamp) = gear_of(statement, group) {
                let has_row = is_declared(plan, lamp) || self.lamps.contains(&lamp);
                if lamp.bus < plan.buses() && !has_row {
                    let name = String::from_str(self.alloc, "-")?;
                    self.add_lamp(lamp, name, scenario)?;
                }
            }
        }
        Ok(())
    }

    /// Adds a row of levels, with the one at which control gear of a scenario begins.
    fn add_lamp(
        &mut self,
        lamp: Lamp,
        name: String,
        scenario: &Scenario,
    ) -> Result<(), AllocError> {
        let first = first_level(lamp, scenario);
        let place = place_of(self.alloc, lamp, first.is_some())?;
        self.lamps.push(lamp)?;
        self.add(Kind::Level, name, place, Some(lamp.bus), first)
    }
}

/// The control gear that a statement declares, where it does; of a group where it begins in that.
fn gear_of(statement: &Statement, group: Option<Lamp>) -> Option<Lamp> {
    let Statement::Gear { bus, short, start } = statement else {
        return None;
    };
    let (bus, address) = (bus.number(), short.number());
    if let Some(group) = group {
        let place = usize::from(group.address.saturating_sub(64));
        if bus != group.bus || !start.groups.get(place).copied().unwrap_or(false) {
            return None;
        }
    }
    Some(Lamp { bus, address })
}

/// The level at which control gear of a scenario begins; of other addresses none is known.
fn first_level(lamp: Lamp, scenario: &Scenario) -> Option<Sign> {
    for statement in scenario.lines() {
        if let Statement::Gear { start, .. } = statement {
            if gear_of(statement, None) == Some(lamp) {
                return Some(Sign::Level(start.level));
            }
        }
    }
    None
}

/// Whether the text declares a level of this.
fn is_declared(plan: &Plan, lamp: Lamp) -> bool {
    for number in 0..plan.globals() {
        match plan.global(number).location {
            Some(Location::Level { bus, address }) if lamp == Lamp { bus, address } => return true,
            _ => {}
        }
    }
    false
}

/// Where a lamp is; `is_gear` says of a short address whether it is of control gear.
fn place_of(alloc: Global, lamp: Lamp, is_gear: bool) -> Result<String, AllocError> {
    let Lamp { bus, address } = lamp;
    let (what, number) = match address {
        80 => return format!(in alloc; "all gear, bus {bus}"),
        gear if is_gear => ("gear", gear),
        group @ 64..=79 => ("group", group - 64),
        none => ("no gear", none),
    };
    format!(in alloc; "{what} {number}, bus {bus}")
}

/// The level of an address after a report of its bus with this interface: that of control gear, and
/// where there is none, the one that was sent there, unless a frame was lost.
pub(crate) fn level_of(line: &SimBus, report: &Report, address: u8) -> Option<u8> {
    if let Some(short) = ShortAddress::new(address) {
        if let Some(gear) = line.gear(short) {
            return Some(gear.level);
        }
    }
    match (report.outcome(), report.transaction().frames()) {
        (Outcome::Done(_), [Frame::Forward16(frame)]) => match frame.fields() {
            Fields16::Level { address: to, level } if to.number() == address && level < 255 => {
                Some(level)
            }
            _ => None,
        },
        _ => None,
    }
}
