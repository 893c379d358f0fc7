//! The functions that a task uses: where they stand in its code, and their words.
//!
//! Each of the plan's functions is gone over in declared order, with whether the task uses it.

ghost use Rattle.std.specs.Prelude.{◌≡◌, ◌≤◌, ◌+◌, ◌++◌, length, flat_map, map, sum_by, IfOk, OnOk};
ghost use Rattle.std.specs.List.{AllByRecursion};
ghost use Rattle.limits.specs.Limits.{most_functions, most_slots, most_words};
ghost use Rattle.ilplan.specs.Functions.{function_types, slots_of_function, words_of_function};
ghost use Rattle.ilplan.specs.Functions.{those_in};
ghost use Rattle.ilcode.specs.Words.{HasWord};
ghost use Rattle.ilcompile.specs.Layout.{bodies_from, placed_from, words_of_bodies};
ghost use Rattle.ilcompile.specs.Layout.{words_of_body, words_of_values};
ghost use Rattle.ilcompile.specs.LayoutSteps.{picked};

use crate::numbers::{CodeNumbers, Placed};
use crate::targets::count;
use crate::words::{push, push_lines};
use ilcode::{FunctionBody, Word, WordOperand};
use ilplan::{Constants, FunctionVariable, UserFunction};
use iltypes::IlType;
use std::alloc::{AllocError, Global};

/// Where each function stands, where it is used: the first that is has the number 0 and this first
/// slot.
pub(crate) fn placed(
    alloc: Global,
    first: u16,
    functions: &[UserFunction],
    used: &[bool],
) -> Result<Vec<Option<Placed>>, AllocError>
    requires flags { length used.now ≡ length functions.now }
    requires few { length functions.now ≤ most_functions }
    requires slots { first + sum_by slots_of_function (those_in (picked functions.now used.now))
        ≤ most_slots }
    ensures { IfOk result (λ placed.
        placed.items ≡ placed_from 0 first (picked functions.now used.now)) }
{
    let mut placed = Vec::new(alloc);
    let mut number = 0;
    let mut next = first;
    for (index, function) in functions.iter().enumerate() {
        if used[index] {
            placed.push(Some(Placed {
                number,
                first: next,
            }))?;
            number += 1;
            next += slots(function) as u16;
        } else {
            placed.push(None)?;
        }
    }
    Ok(placed)
}

/// The functions of the code, of which the first begins at this place and has this first slot.
pub(crate) fn bodies(
    alloc: Global,
    place: usize,
    first: usize,
    functions: &[UserFunction],
    used: &[bool],
) -> Result<Vec<FunctionBody>, AllocError>
    requires flags { length used.now ≡ length functions.now }
    requires slots { first + sum_by slots_of_function (those_in (picked functions.now used.now))
        ≤ most_slots }
    requires words { place + sum_by words_of_function (those_in (picked functions.now used.now))
        ≤ most_words }
    ensures { IfOk result (λ bodies.
        bodies.items ≡ bodies_from place first (those_in (picked functions.now used.now))) }
{
    let mut bodies = Vec::new(alloc);
    let mut start = place;
    let mut next = first;
    for (index, function) in functions.iter().enumerate() {
        if used[index] {
            bodies.push(FunctionBody {
                start,
                first: next,
                inputs: function.inputs().len(),
                slots: slots(function),
            })?;
            start += size(function);
            next += slots(function);
        }
    }
    Ok(bodies)
}

/// Adds the types of the slots of functions.
pub(crate) fn push_types(
    types: &mut Vec<IlType>,
    functions: &[UserFunction],
    used: &[bool],
) -> Result<(), AllocError>
    requires flags { length used.now ≡ length functions.now }
    ensures { OnOk result (types.new.items ≡ types.old.items
        ++ flat_map function_types (those_in (picked functions.now used.now))) }
{
    for (index, function) in functions.iter().enumerate() {
        if used[index] {
            push_own_types(types, function)?;
        }
    }
    Ok(())
}

/// Adds the types of a function's slots.
fn push_own_types(types: &mut Vec<IlType>, function: &UserFunction) -> Result<(), AllocError>
    ensures { OnOk result (types.new.items ≡ types.old.items ++ function_types function.now) }
{
    for input in function.inputs() {
        types.push(input.value_type)?;
    }
    push_variable_types(types, function.variables())
}

/// Adds the types of variables.
fn push_variable_types(
    types: &mut Vec<IlType>,
    variables: &[FunctionVariable],
) -> Result<(), AllocError>
    ensures { OnOk result
        (types.new.items ≡ types.old.items ++ map (λ v. v.value_type) variables.now) }
{
    for variable in variables {
        types.push(variable.value_type)?;
    }
    Ok(())
}

/// Adds the words of functions, of which the first has this first slot.
pub(crate) fn push_bodies(
    alloc: Global,
    words: &mut Vec<Word>,
    constants: &Constants,
    placed: &[Option<Placed>],
    first: u16,
    functions: &[UserFunction],
    used: &[bool],
) -> Result<(), AllocError>
    requires flags { length used.now ≡ length functions.now }
    requires near { AllByRecursion HasWord (words_of_bodies constants.now placed.now
        (length words.old.items) first (those_in (picked functions.now used.now))) }
    requires slots { first + sum_by slots_of_function (those_in (picked functions.now used.now))
        ≤ most_slots }
    requires words { length words.old.items
        + sum_by words_of_function (those_in (picked functions.now used.now)) ≤ most_words }
    ensures { OnOk result (words.new.items ≡ words.old.items
        ++ words_of_bodies constants.now placed.now (length words.old.items) first
        (those_in (picked functions.now used.now))) }
{
    let mut next = first;
    for (index, function) in functions.iter().enumerate() {
        if used[index] {
            let numbers = CodeNumbers::new(constants, next, placed);
            push_body(alloc, words, constants, &numbers, next, function)?;
            next += slots(function) as u16;
        }
    }
    Ok(())
}

/// Adds the words of a function, whose first slot is `own`: its starting values, and its lines.
fn push_body(
    alloc: Global,
    words: &mut Vec<Word>,
    constants: &Constants,
    numbers: &CodeNumbers<'_>,
    own: u16,
    function: &UserFunction,
) -> Result<(), AllocError>
    requires constants { numbers.now.constants ≡ constants.now }
    requires own { numbers.now.own ≡ own }
    requires near { AllByRecursion HasWord
        (words_of_body numbers.now (length words.old.items) function.now) }
    requires limit { length words.old.items + words_of_function function.now ≤ most_words }
    ensures words { OnOk result (words.new.items
        ≡ words.old.items ++ words_of_body numbers.now (length words.old.items) function.now) }
    ensures long { OnOk result (length words.new.items
        ≡ length words.old.items + words_of_function function.now) }
{
    let slot = usize::from(own) + function.inputs().len();
    push_values(words, constants, slot, function.variables())?;
    push_lines(alloc, words, numbers, function.lines())
}

/// Adds the words that give variables their starting values, of which the first has this slot.
fn push_values(
    words: &mut Vec<Word>,
    constants: &Constants,
    slot: usize,
    variables: &[FunctionVariable],
) -> Result<(), AllocError>
    requires near { AllByRecursion HasWord
        (words_of_values constants.now slot (map (λ v. v.initial) variables.now)) }
    ensures words { OnOk result (words.new.items ≡ words.old.items
        ++ words_of_values constants.now slot (map (λ v. v.initial) variables.now)) }
    ensures long { OnOk result
        (length words.new.items ≡ length words.old.items + length variables.now) }
{
    for (index, variable) in variables.iter().enumerate() {
        let constant = constants.number_of(variable.initial) as u16;
        push(
            words,
            Word::Give {
                operand: WordOperand::Constant(constant),
                slot: (slot + index) as u16,
            },
        )?;
    }
    Ok(())
}

/// How many slots a function has.
fn slots(function: &UserFunction) -> usize
    requires { slots_of_function function.now ≤ most_slots }
    ensures { result ≡ slots_of_function function.now }
{
    function.inputs().len() + function.variables().len()
}

/// How many words a function is.
fn size(function: &UserFunction) -> usize
    requires { words_of_function function.now ≤ most_words }
    ensures { result ≡ words_of_function function.now }
{
    function.variables().len() + count(function.lines())
}
