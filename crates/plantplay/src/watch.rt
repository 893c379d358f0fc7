//! The values of variables behind the scans of a plant.

ghost use Rattle.std.specs.Prelude.{◌<◌, length};

use crate::naming::place_of;
use ilplan::{Plan, TaskState};
use iltypes::Value;
use plant::Plant;
use std::alloc::{AllocError, Global};
use std::io;
use std::io::Write;

/// Where the variable of a name is.
#[derive(Clone, Copy, PartialEq, Eq)]
pub(crate) enum Place {
    /// It is the global variable of this number.
    Global(usize),
    /// It is a program instance's, in this slot of a task.
    Own { task: usize, slot: usize },
}

/// A variable that is watched.
#[derive(Drop)]
pub struct WatchedVariable {
    /// Its name, as declared.
    name: String,
    place: Place,
    /// Its value, as it was told last: before the first commit, that at the start.
    told: Value,
    /// Its value behind the last commit.
    value: Value,
}

impl WatchedVariable {
    /// Its name, as declared: `instance.variable`, and of a global variable its name alone.
    pub fn name(&self) -> &str {
        &self.name
    }

    /// Its value behind the last commit, or at the start.
    pub fn value(&self) -> Value {
        self.value
    }
}

/// Variables of a plant, with their values behind its last scan.
#[derive(Drop)]
pub struct Watch {
    alloc: Global,
    /// In the order of the names.
    watched: Vec<WatchedVariable>,
}

impl Watch {
    /// The variables of these names, with their values at a plant. A name that no variable has is
    /// passed over.
    ///
    /// # Errors
    ///
    /// The allocator is out of memory.
    pub fn of(alloc: Global, plant: &Plant, names: &[&str]) -> Result<Watch, AllocError> {
        let plan = plant.setup().plan();
        let mut watch = Watch {
            alloc,
            watched: watched_of(alloc, plan, names)?,
        };
        note_globals(&mut watch.watched, plant);
        for task in 0..plan.tasks() {
            watch.note_task(plant, task)?;
        }
        for variable in &mut watch.watched {
            variable.told = variable.value;
        }
        Ok(watch)
    }

    /// The variables, in the order of the names.
    pub fn variables(&self) -> &[WatchedVariable] {
        &self.watched
    }

    /// Notes the values at the plant behind a scan of a task.
    ///
    /// # Errors
    ///
    /// The allocator is out of memory.
    pub fn note_values(&mut self, plant: &Plant, task: usize) -> Result<(), AllocError> {
        note_globals(&mut self.watched, plant);
        self.note_task(plant, task)
    }

    /// Notes the values of a task's own variables, where some are watched.
    fn note_task(&mut self, plant: &Plant, task: usize) -> Result<(), AllocError> {
        if task < plant.setup().plan().tasks() && is_any_of(&self.watched, task) {
            let state = plant.task_state(self.alloc, task)?;
            note_own(&mut self.watched, task, &state);
        }
        Ok(())
    }

    /// Writes a line for each variable whose value, behind the last commit, is another one than was
    /// told last: four blanks, its name, and its value.
    ///
    /// # Errors
    ///
    /// The writer's.
    pub fn write_changes<W: Write>(&mut self, out: &mut W) -> io::Result<()> {
        for watched in &mut self.watched {
            let value = watched.value;
            if value != watched.told {
                writeln!(out, "    {} = {value}", watched.name)?;
                watched.told = value;
            }
        }
        Ok(())
    }
}

/// The variables of these names; of their values nothing is known.
fn watched_of(
    alloc: Global,
    plan: &Plan,
    names: &[&str],
) -> Result<Vec<WatchedVariable>, AllocError> {
    let mut watched = Vec::new(alloc);
    for name in names {
        if let Some(place) = place_of(plan, name) {
            watched.push(WatchedVariable {
                name: name_at(alloc, plan, place)?,
                place,
                told: Value::Bool(false),
                value: Value::Bool(false),
            })?;
        }
    }
    Ok(watched)
}

/// The name of a variable, as declared.
fn name_at(alloc: Global, plan: &Plan, place: Place) -> Result<String, AllocError> {
    match place {
        Place::Global(global) if global < plan.globals() => {
            format!(in alloc; "{}", plan.global_name(global))
        }
        Place::Own { task, slot } if task < plan.tasks() => own_name(alloc, plan, task, slot),
        _ => Ok(String::new(alloc)),
    }
}

/// The name of a variable of a program instance, as declared.
fn own_name(alloc: Global, plan: &Plan, task: usize, slot: usize) -> Result<String, AllocError>
    requires { task < length plan.now.tasks }
{
    if slot < plan.task(task).slots().len() {
        return format!(in alloc; "{}", plan.slot_name(task, slot));
    }
    Ok(String::new(alloc))
}

/// Whether a variable of a task's program instances is among those that are watched.
fn is_any_of(watched: &[WatchedVariable], task: usize) -> bool {
    for variable in watched {
        if matches!(variable.place, Place::Own { task: of, .. } if of == task) {
            return true;
        }
    }
    false
}

/// Notes the values of a task's own variables, of what lasts of the task.
fn note_own(watched: &mut [WatchedVariable], task: usize, state: &TaskState) {
    for variable in watched {
        match variable.place {
            Place::Own { task: of, slot } if of == task => {
                if let Some(value) = state.values().get(slot) {
                    variable.value = *value;
                }
            }
            _ => {}
        }
    }
}

/// Notes the values of global variables.
fn note_globals(watched: &mut [WatchedVariable], plant: &Plant) {
    for variable in watched {
        match variable.place {
            Place::Global(global) if global < plant.setup().plan().globals() => {
                variable.value = plant.value(global);
            }
            _ => {}
        }
    }
}
