//! The slots of a task.

ghost use Rattle.std.specs.Prelude.{◌≡◌, ◌+◌, ◌++◌, ◌∷◌, [], IfOk, List, OnOk, length, take};
ghost use Rattle.limits.specs.Limits.{most_slots};
ghost use Rattle.ilscope.specs.Configured.{globals_of};
ghost use Rattle.ilplan.specs.declared.slot.Slot.{Slot};
ghost use Rattle.ilsyms.specs.TaskSteps.{AreThere, instances_of};
ghost use Rattle.ilsyms.specs.SlotSteps.{AddsWhere, AreNamed, is_that};
ghost use Rattle.ilsyms.specs.Tasks.{instance_named};
ghost use Rattle.ilsyms.specs.Variables.{global_slot, global_slots, is_among, is_named};
ghost use Rattle.ilsyms.specs.Variables.{slots_in, slots_of};

use crate::tasks::{TaskInstance, program_of};
use ilplan::{Slot, SlotOwner};
use ilscope::{DeclaredExternal, DeclaredGlobal, ProgramScope, Scope};
use ilsource::Name;
use limits::MOST_SLOTS;
use std::alloc::{AllocError, Global};

/// The slots of the instances: the global variables that their programs name, then the variables of
/// each, in declared order. Of more than the greatest number one more than that are given.
pub(crate) fn slots_of(
    alloc: Global,
    scope: &Scope<'_>,
    instances: &[TaskInstance],
) -> Result<Vec<Slot>, AllocError>
    requires { AreThere scope.now.tree instances.now }
    ensures { IfOk result (λ v. v.items ≡ take (most_slots + 1)
        (slots_of scope.now.tree (instances_of scope.now.tree instances.now))) }
{
    let mut slots = slots_of_globals(alloc, scope, instances)?;
    for instance in instances {
        add_slots(
            &mut slots,
            instance.name,
            program_of(scope, instance.program),
        )?;
    }
    Ok(slots)
}

/// The slots of the global variables that the instances' programs name, no more than that.
fn slots_of_globals(
    alloc: Global,
    scope: &Scope<'_>,
    instances: &[TaskInstance],
) -> Result<Vec<Slot>, AllocError>
    requires { AreThere scope.now.tree instances.now }
    ensures { IfOk result (λ v. v.items ≡ take (most_slots + 1)
        (global_slots scope.now.tree (instances_of scope.now.tree instances.now))) }
{
    let named = named_globals(alloc, scope, instances)?;
    let mut slots = Vec::new(alloc);
    for (number, global) in scope.globals().iter().enumerate() {
        if named[number] {
            add_slot(&mut slots, slot_of_global(number, *global))?;
        }
    }
    Ok(slots)
}

/// The slot of the global variable of this number.
fn slot_of_global(number: usize, global: DeclaredGlobal) -> Slot
    ensures { result ≡ global_slot number global }
{
    Slot {
        variable: SlotOwner::Global(number),
        value_type: global.value_type,
        initial: global.initial,
    }
}

/// For each global variable whether one of the instances' programs names it. The externals of a
/// program are read once, however many of the instances are its own.
fn named_globals(
    alloc: Global,
    scope: &Scope<'_>,
    instances: &[TaskInstance],
) -> Result<Vec<bool>, AllocError>
    requires { AreThere scope.now.tree instances.now }
    ensures { IfOk result (λ v. AreNamed (is_named scope.now.tree
        (instances_of scope.now.tree instances.now)) (length (globals_of scope.now.tree)) v.items) }
{
    let mut named = vec![in alloc; false; scope.globals().len()]?;
    let mut seen = vec![in alloc; false; scope.programs().len()]?;
    for instance in instances {
        if !seen[instance.program] {
            seen[instance.program] = true;
            let program = program_of(scope, instance.program);
            add_externals(&mut named, scope, program.externals());
        }
    }
    Ok(named)
}

/// Adds the global variables that a program names.
fn add_externals(named: &mut [bool], scope: &Scope<'_>, externals: &[DeclaredExternal])
    ensures { AddsWhere (λ number. is_among scope.now.tree number externals.now)
        named.old named.new }
{
    for external in externals {
        add_global(named, scope.global_number(external.name));
    }
}

/// Adds the global variable of this number, where it is there.
fn add_global(named: &mut [bool], number: Option<usize>)
    ensures { AddsWhere (is_that number) named.old named.new }
{
    if let Some(number) = number
        && number < named.len()
    {
        named[number] = true;
    }
}

/// Adds the slots of an instance of a program.
fn add_slots(
    slots: &mut Vec<Slot>,
    instance: Name,
    program: &ProgramScope<'_>,
) -> Result<(), AllocError>
    ensures { OnOk result ((all : List Slot) → slots.old.items ≡ take (most_slots + 1) all
        → slots.new.items ≡ take (most_slots + 1)
        (all ++ slots_in (instance_named instance program.now))) }
{
    if slots.len() > MOST_SLOTS {
        return Ok(());
    }
    for variable in program.variables() {
        let slot = Slot {
            variable: SlotOwner::Own {
                instance,
                name: variable.name,
            },
            value_type: variable.value_type,
            initial: variable.initial,
        };
        add_slot(slots, slot)?;
    }
    Ok(())
}

/// Adds a slot, where there are not too many already.
fn add_slot(slots: &mut Vec<Slot>, slot: Slot) -> Result<(), AllocError>
    ensures { OnOk result ((all : List Slot) → slots.old.items ≡ take (most_slots + 1) all
        → slots.new.items ≡ take (most_slots + 1) (all ++ slot ∷ [])) }
{
    if slots.len() <= MOST_SLOTS {
        slots.push(slot)?;
    }
    Ok(())
}
