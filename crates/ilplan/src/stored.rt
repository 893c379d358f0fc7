//! Which slots the lines of a task store to.

ghost use Rattle.std.specs.Prelude.{◌≡◌, IfOk, flat_map};
ghost use Rattle.ilsource.specs.Uses.{uses_in};
ghost use Rattle.ilplan.specs.StoreSteps.{Adds, AreStored, slot_of, stored_in};

use crate::instance::ProgramInstance;
use crate::place::Place;
use ilsource::{Instruction, Line};
use std::alloc::{AllocError, Global};

/// For each of the given number of slots whether a line of the instances stores to it, sets it or
/// resets it.
pub(crate) fn stored_slots(
    alloc: Global,
    slots: usize,
    instances: &[ProgramInstance],
) -> Result<Vec<bool>, AllocError>
    ensures { IfOk result (λ stored. AreStored instances.now slots stored.items) }
{
    let mut stored = vec![in alloc; false; slots]?;
    for instance in instances {
        add_lines(&mut stored, instance.lines());
    }
    Ok(stored)
}

/// Adds the slots that lines store to.
fn add_lines(stored: &mut [bool], lines: &[Line<Place, usize>])
    ensures { Adds (flat_map uses_in lines.now) stored.old stored.new }
{
    for line in lines {
        add_line(stored, line);
    }
}

/// Adds the slot that a line stores to, where it stores to one.
fn add_line(stored: &mut [bool], line: &Line<Place, usize>)
    ensures { Adds (uses_in line.now) stored.old stored.new }
{
    let Some(slot) = stored_slot(line) else {
        return;
    };
    if slot < stored.len() {
        stored[slot] = true;
    }
}

/// The slot that a line stores to, sets or resets.
fn stored_slot(line: &Line<Place, usize>) -> Option<usize>
    ensures { result ≡ stored_in line.now }
{
    match line.instruction.as_ref()? {
        Instruction::Store { variable, .. } => slot_of(*variable),
        Instruction::Set(variable) => slot_of(*variable),
        Instruction::Reset(variable) => slot_of(*variable),
        _ => None,
    }
}

/// The number of a variable's slot.
fn slot_of(place: Place) -> Option<usize>
    ensures { result ≡ slot_of place }
{
    match place {
        Place::Slot(slot) => Some(slot),
        Place::Port { .. } | Place::Block(_) | Place::Function(_) => None,
    }
}
