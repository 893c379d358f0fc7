//! The functions of a plan.

ghost use Rattle.std.specs.Prelude.{◌≡◌, ◌<◌, ◌++◌, IfOk, OnOk, Some, [], length, map, option_map};
ghost use Rattle.std.specs.Prelude.{slice_get, take};
ghost use Rattle.ilsource.specs.Words.{AreShallow};
ghost use Rattle.ilsource.specs.Programs.{AreSorted};
ghost use Rattle.ilplan.specs.Plans.{AreFunctions, IsFunction};
ghost use Rattle.ilscope.specs.Declarations.{declared_functions};
ghost use Rattle.ilsyms.specs.Faults.{IsWellNamed};
ghost use Rattle.ilsyms.specs.Resolved.{planned_function, planned_functions, planned_input};
ghost use Rattle.ilsyms.specs.Resolved.{planned_instance, planned_variable};
ghost use Rattle.ilsyms.specs.Variables.{alone, as_instance, blocks_of, own_slot, slots_in};
ghost use Rattle.ilsyms.specs.Variables.{slots_of};

use crate::numbering::Numbering;
use ilplan::{FunctionInput, FunctionVariable, Place, Slot, SlotOwner, UserFunction};
use ilscope::{BodyNumber, DeclaredVariable, FunctionScope, Scope, number_labels};
use ilsource::{Line, Name};
use std::alloc::{AllocError, Global};

/// The functions of a text without fault, in declared order, each over the places of its own
/// variables.
pub(crate) fn plan_functions(
    alloc: Global,
    scope: &Scope<'_>,
) -> Result<Vec<UserFunction>, AllocError>
    requires { IsWellNamed scope.now.tree scope.now.wiring }
    ensures functions { IfOk result (λ v. v.items ≡ planned_functions scope.now.tree) }
    ensures lawful { IfOk result (λ v. AreFunctions [] v.items) }
{
    let mut functions = Vec::new(alloc);
    for number in 0..scope.functions().len() {
        functions.push(plan_function(alloc, scope, number)?)?;
    }
    Ok(functions)
}

/// The function with this number, which is below the number of functions.
fn plan_function(
    alloc: Global,
    scope: &Scope<'_>,
    number: usize,
) -> Result<UserFunction, AllocError>
    requires named { IsWellNamed scope.now.tree scope.now.wiring }
    requires there { number < length (declared_functions scope.now.tree) }
    ensures function { IfOk result (λ function. option_map (planned_function scope.now.tree)
        (slice_get (declared_functions scope.now.tree) number) ≡ Some function) }
    ensures lawful { IfOk result (λ function.
        IsFunction (take number (planned_functions scope.now.tree)) function) }
{
    let function = &scope.functions()[number];
    let inputs = inputs_of(alloc, function.inputs())?;
    let variables = variables_of(alloc, function.variables())?;
    let lines = lines_of(alloc, scope, number, function)?;
    let written = function.function();
    Ok(UserFunction::new(written.name(), written.at(), inputs, variables, lines))
}

/// The inputs of a plan's function.
fn inputs_of(alloc: Global, inputs: &[DeclaredVariable]) -> Result<Vec<FunctionInput>, AllocError>
    ensures { IfOk result (λ v. v.items ≡ map planned_input inputs.now) }
{
    let mut planned = Vec::new(alloc);
    for input in inputs {
        planned.push(FunctionInput {
            name: input.name,
            value_type: input.value_type,
        })?;
    }
    Ok(planned)
}

/// The other variables of a plan's function.
fn variables_of(
    alloc: Global,
    variables: &[DeclaredVariable],
) -> Result<Vec<FunctionVariable>, AllocError>
    ensures { IfOk result (λ v. v.items ≡ map planned_variable variables.now) }
{
    let mut planned = Vec::new(alloc);
    for variable in variables {
        planned.push(FunctionVariable {
            name: variable.name,
            value_type: variable.value_type,
            initial: variable.initial,
        })?;
    }
    Ok(planned)
}

/// The lines of the function with this number, over the places of its own variables.
fn lines_of(
    alloc: Global,
    scope: &Scope<'_>,
    number: usize,
    function: &FunctionScope<'_>,
) -> Result<Vec<Line<Place, usize>>, AllocError>
    requires named { IsWellNamed scope.now.tree scope.now.wiring }
    requires there { slice_get (declared_functions scope.now.tree) number ≡ Some function.now }
    ensures lines { IfOk result (λ v. v.items ≡ (planned_instance scope.now.tree
        (slots_of scope.now.tree (alone function.now)) (blocks_of (alone function.now))
        (as_instance function.now)).lines) }
    ensures shallow { OnOk result (AreShallow function.now.function.lines) }
    ensures sorted { OnOk result (AreSorted function.now.function.lines) }
{
    let lines = function.function().lines();
    let slots = own_slots(alloc, function)?;
    let global_slots = vec![in alloc; slots.len(); scope.globals().len()]?;
    let (labels, _) = number_labels(alloc, scope, lines, None)?;
    let numbering = Numbering::new(
        scope,
        BodyNumber::Function(number),
        &slots,
        &global_slots,
        0,
        0,
        0,
        labels,
        lines.len(),
    );
    numbering.lines(alloc, lines)
}

/// The slots of a function's inputs and of its other variables.
fn own_slots(alloc: Global, function: &FunctionScope<'_>) -> Result<Vec<Slot>, AllocError>
    ensures { IfOk result (λ v. v.items ≡ slots_in (as_instance function.now)) }
{
    let name = function.function().name();
    let mut slots = Vec::new(alloc);
    push_slots(&mut slots, name, function.inputs())?;
    push_slots(&mut slots, name, function.variables())?;
    Ok(slots)
}

/// Adds the slots of some variables.
fn push_slots(
    slots: &mut Vec<Slot>,
    instance: Name,
    variables: &[DeclaredVariable],
) -> Result<(), AllocError>
    ensures { OnOk result
        (slots.new.items ≡ slots.old.items ++ map (own_slot instance) variables.now) }
{
    for variable in variables {
        slots.push(slot_of(instance, *variable))?;
    }
    Ok(())
}

/// The slot of a variable.
fn slot_of(instance: Name, variable: DeclaredVariable) -> Slot
    ensures { result ≡ own_slot instance variable }
{
    Slot {
        variable: SlotOwner::Own {
            instance,
            name: variable.name,
        },
        value_type: variable.value_type,
        initial: variable.initial,
    }
}
