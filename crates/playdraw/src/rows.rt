//! The rows of a picture before anything happened, but for those of lamps.

use crate::drawing::{Drawing, sign_of_value};
use crate::parts::Kind;
use ilplan::{Activation, Location, Plan};
use std::alloc::{AllocError, Global};
use wordlines::BoundSource;

impl Drawing {
    /// Adds a row for each source of the binding, each task, and each bus.
    pub(crate) fn add_others(&mut self, plan: &Plan) -> Result<(), AllocError> {
        let alloc = self.alloc;
        for source in plan.sources() {
            let (number, bus) = (source.number, source.bus);
            let name = name_of(alloc, plan, source)?;
            let place = format!(in alloc; "source {number}, bus {bus}")?;
            self.add(Kind::Source, name, place, Some(bus), None)?;
            self.sources.push(*source)?;
        }
        for task in 0..plan.tasks() {
            let name = String::from_str(alloc, plan.task_name(task))?;
            self.add(
                Kind::Task,
                name,
                String::new(alloc),
                bus_of(plan, task),
                None,
            )?;
        }
        for bus in 0..plan.buses() {
            let name = format!(in alloc; "bus {bus}")?;
            self.add(Kind::Bus, name, String::new(alloc), Some(bus), None)?;
        }
        Ok(())
    }

    /// Adds a row for each variable that is watched.
    pub(crate) fn add_variables(&mut self) -> Result<(), AllocError> {
        for number in 0..self.watch.variables().len() {
            if let Some(watched) = self.watch.variables().get(number) {
                let name = String::from_str(self.alloc, watched.name())?;
                let value = sign_of_value(watched.value());
                let place = String::new(self.alloc);
                self.add(Kind::Variable, name, place, None, Some(value))?;
            }
        }
        Ok(())
    }
}

/// What the text calls a source: the name of its trigger, else that of another of its variables.
fn name_of(alloc: Global, plan: &Plan, bound: &BoundSource) -> Result<String, AllocError> {
    let mut found = None;
    for number in 0..plan.globals() {
        match plan.global(number).location {
            Some(Location::Trigger { bus, source }) if is_at(bound, bus, source) => {
                return plan.global_name(number).to_string(alloc);
            }
            Some(Location::Information { bus, source } | Location::Count { bus, source })
                if is_at(bound, bus, source) && found.is_none() => {
                found = Some(plan.global_name(number));
            }
            _ => {}
        }
    }
    match found {
        Some(name) => name.to_string(alloc),
        None => String::from_str(alloc, "-"),
    }
}

/// Whether a source is bound at this place.
fn is_at(bound: &BoundSource, bus: u8, number: u8) -> bool {
    bound.bus == bus && bound.number == number
}

/// The bus on which a task's trigger is, where an event starts it.
fn bus_of(plan: &Plan, task: usize) -> Option<u8> {
    if task >= plan.tasks() {
        return None;
    }
    match plan.task(task).activation() {
        Activation::Event { trigger } if trigger < plan.globals() => {
            match plan.global(trigger).location {
                Some(Location::Trigger { bus, .. }) => Some(bus),
                _ => None,
            }
        }
        _ => None,
    }
}
