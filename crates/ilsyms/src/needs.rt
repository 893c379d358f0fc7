//! What functions take of a task that uses them.

ghost use Rattle.std.specs.Prelude.{◌≡◌, ◌++◌, IfOk, OnOk, flat_map, length, map, replicate};
ghost use Rattle.ilsource.specs.Words.{places_in};
ghost use Rattle.ilscope.specs.Uses.{uses_of};
ghost use Rattle.ilscope.specs.Declarations.{declared_functions, declared_programs};
ghost use Rattle.ilsyms.specs.FunctionSteps.{begins_with, calls_of_program, function_named};
ghost use Rattle.ilsyms.specs.FunctionSteps.{functions_named, needs_of};

use ilscope::{DeclaredVariable, FunctionScope, Scope, uses_of};
use ilsource::{Line, Name, Operand, Purpose, Symbol, Use};
use std::alloc::{AllocError, Global};
use std::marker::Model;

/// What a function takes of a task.
#[derive(Drop)]
pub(crate) struct Needs {
    /// The numbers of the functions that it calls.
    calls: Vec<usize>,
    /// The place of each of its variables.
    slots: Vec<usize>,
    /// The place of each of its words.
    words: Vec<usize>,
    /// What it uses, with the values that its variables begin with.
    uses: Vec<Use<Symbol>>,
}

impl Model for Needs {
    ghost use Rattle.ilsyms.specs.FunctionSteps as steps;

    ghost Value = { steps.Needs };

    ghost view = { λ n. record {
      calls = n.calls.items;
      slots = n.slots.items;
      words = n.words.items;
      uses = n.uses.items;
    } };
}

impl Needs {
    ghost use Rattle.std.specs.Prelude.{◌≡◌, IfOk};
    ghost use Rattle.ilsyms.specs.FunctionSteps.{needs_of};

    /// What one function takes.
    fn of(
        alloc: Global,
        scope: &Scope<'_>,
        function: &FunctionScope<'_>,
    ) -> Result<Needs, AllocError>
        ensures { IfOk result (λ needs. needs ≡ needs_of scope.now.tree function.now) }
    {
        let lines = function.function().lines();
        let slots = slot_places(alloc, function)?;
        let words = word_places(alloc, function)?;
        let calls = functions_named(alloc, scope, lines)?;
        let uses = uses_with_values(alloc, function)?;
        Ok(Needs {
            calls,
            slots,
            words,
            uses,
        })
    }

    /// The numbers of the functions that it calls.
    pub(crate) fn calls(&self) -> &[usize]
        ensures value { result.now ≡ self.now.calls }
    {
        &self.calls
    }

    /// The place of each of its variables.
    pub(crate) fn slots(&self) -> &[usize]
        ensures value { result.now ≡ self.now.slots }
    {
        &self.slots
    }

    /// The place of each of its words.
    pub(crate) fn words(&self) -> &[usize]
        ensures value { result.now ≡ self.now.words }
    {
        &self.words
    }

    /// What it uses, with the values that its variables begin with.
    pub(crate) fn uses(&self) -> &[Use<Symbol>]
        ensures value { result.now ≡ self.now.uses }
    {
        &self.uses
    }
}

/// The numbers of functions that a program calls.
#[derive(Drop)]
pub(crate) struct ProgramCalls {
    calls: Vec<usize>,
}

impl Model for ProgramCalls {
    ghost use Rattle.std.specs.Prelude.{ℕ, List};

    ghost Value = { List ℕ };

    ghost view = { λ c. c.calls.items };
}

impl ProgramCalls {
    ghost use Rattle.std.specs.Prelude.{◌≡◌};

    /// The numbers.
    pub(crate) fn as_slice(&self) -> &[usize]
        ensures value { result.now ≡ self.now }
    {
        &self.calls
    }
}

/// What each function of the text takes, in declared order.
pub(crate) fn needs_of_functions(alloc: Global, scope: &Scope<'_>) -> Result<Vec<Needs>, AllocError>
    ensures { IfOk result (λ v. v.items
        ≡ map (needs_of scope.now.tree) (declared_functions scope.now.tree)) }
{
    let mut needs = Vec::new(alloc);
    for function in scope.functions() {
        needs.push(Needs::of(alloc, scope, function)?)?;
    }
    Ok(needs)
}

/// The numbers of the functions that each program of the text calls.
pub(crate) fn calls_of_programs(
    alloc: Global,
    scope: &Scope<'_>,
) -> Result<Vec<ProgramCalls>, AllocError>
    ensures { IfOk result (λ v. v.items
        ≡ map (calls_of_program scope.now.tree) (declared_programs scope.now.tree)) }
{
    let mut all = Vec::new(alloc);
    for program in scope.programs() {
        let calls = functions_named(alloc, scope, program.program().lines())?;
        all.push(ProgramCalls { calls })?;
    }
    Ok(all)
}

/// The numbers of the functions that lines invoke, one for each call.
fn functions_named(
    alloc: Global,
    scope: &Scope<'_>,
    lines: &[Line<Symbol, Name>],
) -> Result<Vec<usize>, AllocError>
    ensures { IfOk result (λ v.
        v.items ≡ functions_named scope.now.tree (uses_of lines.now)) }
{
    let uses = uses_of(alloc, lines)?;
    let mut numbers = Vec::new(alloc);
    for used in &uses {
        if let Some(number) = function_named(scope, *used) {
            numbers.push(number)?;
        }
    }
    Ok(numbers)
}

/// The number of the function that a use invokes; past the last where there is none of the name.
fn function_named(scope: &Scope<'_>, used: Use<Symbol>) -> Option<usize>
    ensures { result ≡ function_named scope.now.tree used }
{
    let (Purpose::Invoke, Operand::Name(Symbol::Function(name))) = (used.purpose, used.operand)
    else {
        return None;
    };
    let number = scope.function_number(name);
    Some(number.unwrap_or(scope.functions().len()))
}

/// The place of each variable of a function.
fn slot_places(alloc: Global, function: &FunctionScope<'_>) -> Result<Vec<usize>, AllocError>
    ensures { IfOk result (λ v. v.items
        ≡ map (λ v. v.name.from) (function.now.inputs ++ function.now.variables)) }
{
    let mut places = Vec::new(alloc);
    push_places(&mut places, function.inputs())?;
    push_places(&mut places, function.variables())?;
    Ok(places)
}

/// Adds the place of each of some variables.
fn push_places(places: &mut Vec<usize>, variables: &[DeclaredVariable]) -> Result<(), AllocError>
    ensures { OnOk result
        (places.new.items ≡ places.old.items ++ map (λ v. v.name.from) variables.now) }
{
    for variable in variables {
        places.push(variable.name.from)?;
    }
    Ok(())
}

/// The place of each word of a function: one for each variable that begins anew, and those of its
/// lines.
fn word_places(alloc: Global, function: &FunctionScope<'_>) -> Result<Vec<usize>, AllocError>
    ensures { IfOk result (λ v. v.items
        ≡ replicate (length function.now.variables) function.now.function.name.from
        ++ flat_map places_in function.now.function.lines) }
{
    let written = function.function();
    let mut places = vec![in alloc; written.name().from; function.variables().len()]?;
    for line in written.lines() {
        line.push_places(&mut places)?;
    }
    Ok(places)
}

/// What a function uses, with the values that its variables begin with before it.
fn uses_with_values(
    alloc: Global,
    function: &FunctionScope<'_>,
) -> Result<Vec<Use<Symbol>>, AllocError>
    ensures { IfOk result (λ v. v.items
        ≡ map (begins_with function.now.function.name) function.now.variables
        ++ uses_of function.now.function.lines) }
{
    let written = function.function();
    let mut uses = Vec::new(alloc);
    push_values(&mut uses, written.name(), function.variables())?;
    let used = uses_of(alloc, written.lines())?;
    uses.extend_from_slice(&used)?;
    Ok(uses)
}

/// Adds the values that the variables of a function begin with.
fn push_values(
    uses: &mut Vec<Use<Symbol>>,
    function: Name,
    variables: &[DeclaredVariable],
) -> Result<(), AllocError>
    ensures { OnOk result
        (uses.new.items ≡ uses.old.items ++ map (begins_with function) variables.now) }
{
    for variable in variables {
        uses.push(begins_with(function, *variable))?;
    }
    Ok(())
}

/// The use of the value that a variable of a function begins with.
fn begins_with(function: Name, variable: DeclaredVariable) -> Use<Symbol>
    ensures { result ≡ begins_with function variable }
{
    Use {
        at: function.from,
        purpose: Purpose::Read,
        operand: Operand::Constant(variable.initial),
    }
}
