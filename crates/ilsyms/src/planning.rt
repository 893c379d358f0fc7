//! The instances of a task.

ghost use Rattle.std.specs.Prelude.{◌≡◌, ◌≤◌, IfOk, OnOk, Some, length};
ghost use Rattle.std.specs.List.{position_or_len};
ghost use Rattle.ilsource.specs.Words.{AreShallow};
ghost use Rattle.ilsource.specs.Programs.{AreSorted};
ghost use Rattle.limits.specs.Limits.{most_blocks, most_functions};
ghost use Rattle.ilscope.specs.Declarations.{declared_functions};
ghost use Rattle.ilsyms.specs.TaskSteps.{AreThere, instances_of};
ghost use Rattle.ilsyms.specs.PlanningSteps.{AreApart};
ghost use Rattle.ilsyms.specs.Meaning.{is_global};
ghost use Rattle.ilsyms.specs.NumberingSteps.{AreGlobalSlots};
ghost use Rattle.ilsyms.specs.PlanningSteps.{SetsWhere, is_of_instance};
ghost use Rattle.ilsyms.specs.Resolved.{planned_instances};
ghost use Rattle.ilsyms.specs.Variables.{blocks_of, lines_of, slots_of};

use crate::numbering::Numbering;
use crate::tasks::{TaskInstance, program_of};
use ilplan::{FunctionBlock, ProgramInstance, Slot, SlotOwner};
use ilscope::{BodyNumber, Scope, number_labels};
use std::alloc::{AllocError, Global};

/// The program instances of a task, each with a name of its own, over the places of the task's
/// slots and block instances.
pub(crate) fn plan_instances(
    alloc: Global,
    scope: &Scope<'_>,
    instances: &[TaskInstance],
    slots: &[Slot],
    blocks: &[FunctionBlock],
) -> Result<Vec<ProgramInstance>, AllocError>
    requires there { AreThere scope.now.tree instances.now }
    requires apart { AreApart scope.now.tree.text (instances_of scope.now.tree instances.now) }
    requires slots { slots.now ≡ slots_of scope.now.tree
        (instances_of scope.now.tree instances.now) }
    requires blocks { blocks.now ≡ blocks_of (instances_of scope.now.tree instances.now) }
    requires few_blocks { length blocks.now ≤ most_blocks }
    requires few_functions { length (declared_functions scope.now.tree) ≤ most_functions }
    ensures instances { IfOk result (λ v. v.items ≡ planned_instances scope.now.tree
        (instances_of scope.now.tree instances.now)) }
    ensures shallow { OnOk result
        (AreShallow (lines_of (instances_of scope.now.tree instances.now))) }
    ensures sorted { OnOk result
        (AreSorted (lines_of (instances_of scope.now.tree instances.now))) }
{
    let mut planned = Vec::new(alloc);
    let global_slots = global_slots(alloc, slots, scope.globals().len())?;
    let mut first_slot = first_own(slots);
    let mut first_block = 0;
    for instance in instances {
        let program = program_of(scope, instance.program);
        let lines = program.program().lines();
        let (labels, _) = number_labels(alloc, scope, lines, None)?;
        let numbering = Numbering::new(
            scope,
            BodyNumber::Program(instance.program),
            slots,
            &global_slots,
            first_slot,
            blocks.len(),
            first_block,
            labels,
            lines.len(),
        );
        let lines = numbering.lines(alloc, lines)?;
        planned.push(ProgramInstance::new(instance.name, lines))?;
        first_slot += program.variables().len();
        first_block += program.blocks().len();
    }
    Ok(planned)
}

/// For each of the given number of global variables the number of its slot; past the last where it
/// has none.
fn global_slots(alloc: Global, slots: &[Slot], globals: usize) -> Result<Vec<usize>, AllocError>
    ensures { IfOk result (λ v. AreGlobalSlots slots.now globals v.items) }
{
    let mut numbers = vec![in alloc; slots.len(); globals]?;
    // Backwards, so that the first of several slots of one variable stays.
    for number in (0..slots.len()).rev() {
        set_number(&mut numbers, slots[number].variable, number);
    }
    Ok(numbers)
}

/// Sets the number of the slot of a variable, where it is a global one with an entry.
fn set_number(numbers: &mut [usize], variable: SlotOwner, number: usize)
    ensures { SetsWhere (λ global. is_global (Some global) variable) number
        numbers.old numbers.new }
{
    if let SlotOwner::Global(global) = variable
        && global < numbers.len()
    {
        numbers[global] = number;
    }
}

/// The number of the first slot of a variable of an instance, which is how many slots are of global
/// variables.
fn first_own(slots: &[Slot]) -> usize
    ensures { result ≡ position_or_len (λ s. is_of_instance s.variable) slots.now }
{
    for (number, slot) in slots.iter().enumerate() {
        if is_of_instance(slot.variable) {
            return number;
        }
    }
    slots.len()
}

/// Whether a variable is one of an instance.
fn is_of_instance(variable: SlotOwner) -> bool
    ensures { result ≡ is_of_instance variable }
{
    matches!(variable, SlotOwner::Own { .. })
}
