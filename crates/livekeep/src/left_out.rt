//! Kept values with which no variable begins.

ghost use Rattle.std.specs.Prelude.{◌≡◌, ◌++◌, IfOk, OnOk, flat_map};
ghost use Rattle.livekeep.specs.KeptBlocks.{block_taken};
ghost use Rattle.livekeep.specs.KeptPlans.{global_taken, left_out_of, slot_taken, taken, taken_by};
ghost use Rattle.livekeep.specs.KeptPlans.{task_taken};

use crate::blocks::take_block;
use crate::first_values::{is_trigger, kept_value, own_name};
use crate::kept::Kept;
use crate::reading::has_name;
use crate::value::KeptValue;
use ilplan::{Global as GlobalVariable, Plan, Slot, SlotOwner, Task};
use iltypes::IlType;
use std::alloc::{AllocError, Global};
use std::fmt;
use std::marker::Model;

/// A kept value with which nothing begins: no variable and no part of a block instance has its
/// name, the variable that has it is a trigger, the value is not one of its type, or another part
/// of the instance was not kept.
#[derive(Drop)]
pub struct LeftOut {
    kept: KeptValue,
}

impl Model for LeftOut {
    ghost use Rattle.livekeep.specs.KeptFiles.{KeptEntry};

    ghost Value = { KeptEntry };

    ghost view = { λ left. left.kept };
}

impl LeftOut {
    ghost use Rattle.std.specs.Prelude.{◌≡◌};

    /// This value is left out.
    pub(crate) fn new(kept: KeptValue) -> LeftOut
        ensures { result ≡ kept }
    {
        LeftOut { kept }
    }

    /// The value.
    pub fn kept_value(&self) -> &KeptValue
        ensures value { result.now ≡ self.now }
    {
        &self.kept
    }
}

/// `left out: lamp = 300`
impl fmt::Display for LeftOut {
    ghost use Rattle.std.specs.Prelude.{◌++◌, Some, codes};
    ghost use Rattle.livekeep.specs.Printed.{printed_entry};

    ghost output = { λ left. Some (codes "left out: " ++ printed_entry left) };

    fn fmt<W: fmt::Write>(&self, f: &mut fmt::Formatter<W>) -> fmt::Result {
        write!(f, "left out: {}", self.kept)
    }
}

impl fmt::Debug for LeftOut {
    fn fmt<W: fmt::Write>(&self, f: &mut fmt::Formatter<W>) -> fmt::Result {
        write!(f, "{self}")
    }
}

/// The kept values with which no variable and no block instance of a plan begins, in their order.
///
/// # Errors
///
/// The allocator is out of memory.
pub fn left_out_of(alloc: Global, plan: &Plan, kept: &Kept) -> Result<Vec<LeftOut>, AllocError>
    ensures { IfOk result (λ left. left.items ≡ left_out_of kept.now.values plan.now) }
{
    let taken = taken(alloc, plan, kept)?;
    let mut left = Vec::new(alloc);
    for value in kept.values() {
        if !has_name(&taken, value.name()) {
            let value = KeptValue::new(alloc, value.name(), value.value())?;
            left.push(LeftOut::new(value))?;
        }
    }
    Ok(left)
}

/// Of what was kept that with which the variables and block instances of a plan begin.
#[tactic(auto, using(crate::proofs::TakenLists::flat_at))]
fn taken(alloc: Global, plan: &Plan, kept: &Kept) -> Result<Vec<KeptValue>, AllocError>
    ensures { IfOk result (λ values. values.items ≡ taken kept.now.values plan.now) }
{
    let mut taken = globals_taken(alloc, plan, kept)?;
    for task in 0..plan.tasks() {
        take_task(alloc, &mut taken, plan, kept, plan.task(task))?;
    }
    Ok(taken)
}

/// That with which the global variables begin.
#[tactic(auto, using(crate::proofs::TakenLists::flat_at))]
fn globals_taken(alloc: Global, plan: &Plan, kept: &Kept) -> Result<Vec<KeptValue>, AllocError>
    ensures { IfOk result (λ values. values.items
        ≡ flat_map (global_taken plan.now.text kept.now.values) plan.now.globals) }
{
    let mut taken = Vec::new(alloc);
    for global in 0..plan.globals() {
        take_global(alloc, &mut taken, plan.text(), kept, plan.global(global))?;
    }
    Ok(taken)
}

/// Adds that with which a global variable begins.
fn take_global(
    alloc: Global,
    taken: &mut Vec<KeptValue>,
    text: &[u8],
    kept: &Kept,
    global: &GlobalVariable,
) -> Result<(), AllocError>
    ensures { OnOk result (taken.new.items
        ≡ taken.old.items ++ global_taken text.now kept.now.values global.now) }
{
    if is_trigger(global.location) {
        return Ok(());
    }
    take(
        alloc,
        taken,
        kept,
        global.name.text(text),
        global.value_type,
    )
}

/// Adds that with which a task begins.
fn take_task(
    alloc: Global,
    taken: &mut Vec<KeptValue>,
    plan: &Plan,
    kept: &Kept,
    task: &Task,
) -> Result<(), AllocError>
    ensures { OnOk result (taken.new.items
        ≡ taken.old.items ++ task_taken plan.now kept.now.values task.now) }
{
    take_slots(alloc, taken, plan.text(), kept, task)?;
    take_blocks(alloc, taken, plan, kept, task)
}

/// Adds that with which the variables of a task's program instances begin.
fn take_slots(
    alloc: Global,
    taken: &mut Vec<KeptValue>,
    text: &[u8],
    kept: &Kept,
    task: &Task,
) -> Result<(), AllocError>
    ensures { OnOk result (taken.new.items
        ≡ taken.old.items ++ flat_map (slot_taken text.now kept.now.values) task.now.slots) }
{
    for slot in task.slots() {
        take_slot(alloc, taken, text, kept, *slot)?;
    }
    Ok(())
}

/// Adds that with which the block instances of a task begin.
fn take_blocks(
    alloc: Global,
    taken: &mut Vec<KeptValue>,
    plan: &Plan,
    kept: &Kept,
    task: &Task,
) -> Result<(), AllocError>
    ensures { OnOk result (taken.new.items
        ≡ taken.old.items ++ flat_map (block_taken plan.now kept.now.values) task.now.blocks) }
{
    for block in task.blocks() {
        take_block(alloc, taken, plan, kept, *block)?;
    }
    Ok(())
}

/// Adds that with which the variable in a slot begins, where it is one of a program instance.
fn take_slot(
    alloc: Global,
    taken: &mut Vec<KeptValue>,
    text: &[u8],
    kept: &Kept,
    slot: Slot,
) -> Result<(), AllocError>
    ensures { OnOk result (taken.new.items
        ≡ taken.old.items ++ slot_taken text.now kept.now.values slot) }
{
    match slot.variable {
        SlotOwner::Global(_) => Ok(()),
        SlotOwner::Own { instance, name } => {
            let name = own_name(alloc, text, instance, name)?;
            take(alloc, taken, kept, &name, slot.value_type)
        }
    }
}

/// Adds that with which a variable of this name and type begins.
fn take(
    alloc: Global,
    taken: &mut Vec<KeptValue>,
    kept: &Kept,
    name: &[u8],
    value_type: IlType,
) -> Result<(), AllocError>
    ensures { OnOk result (taken.new.items
        ≡ taken.old.items ++ taken_by kept.now.values name.now value_type) }
{
    if let Some(value) = kept_value(kept, name, value_type) {
        taken.push(KeptValue::new(alloc, name, value)?)?;
    }
    Ok(())
}
