//! The lines of the text that words stand on.

ghost use Rattle.std.specs.Prelude.{◌≡◌, ◌≤◌, ◌++◌, length, map, flat_map, replicate, IfOk, OnOk};
ghost use Rattle.limits.specs.Limits.{most_bytes};
ghost use Rattle.ilsource.specs.Words.{places_in};
ghost use Rattle.ilsource.specs.Places.{line_at};
ghost use Rattle.ilplan.specs.Functions.{those_in};
ghost use Rattle.ilcompile.specs.Layout.{places_of_body, places_of_programs, programs_of};
ghost use Rattle.ilcompile.specs.LayoutSteps.{picked};

use ilplan::{Place, ProgramInstance, UserFunction};
use ilsource::{Line, LineCounter};
use std::alloc::{AllocError, Global};

/// The line of `text` for each word of the instances and of the functions that are used.
pub(crate) fn line_numbers(
    alloc: Global,
    text: &[u8],
    instances: &[ProgramInstance],
    functions: &[UserFunction],
    used: &[bool],
) -> Result<Vec<u32>, AllocError>
    requires short { length text.now ≤ most_bytes }
    requires flags { length used.now ≡ length functions.now }
    ensures { IfOk result (λ numbers. numbers.items ≡ map (line_at text.now)
        (places_of_programs (programs_of instances.now)
        ++ flat_map places_of_body (those_in (picked functions.now used.now)))) }
{
    let mut places = places(alloc, instances)?;
    push_bodies(&mut places, functions, used)?;
    let mut counter = LineCounter::new(text);
    let mut numbers = Vec::new(alloc);
    for at in &places {
        numbers.push(counter.line_of(*at) as u32)?;
    }
    Ok(numbers)
}

/// The place in the text of each word of the instances.
fn places(alloc: Global, instances: &[ProgramInstance]) -> Result<Vec<usize>, AllocError>
    ensures { IfOk result
        (λ places. places.items ≡ places_of_programs (programs_of instances.now)) }
{
    let mut places = Vec::new(alloc);
    for instance in instances {
        push_places(&mut places, instance.lines())?;
    }
    Ok(places)
}

/// Adds the place of each word of the functions that are used.
fn push_bodies(
    places: &mut Vec<usize>,
    functions: &[UserFunction],
    used: &[bool],
) -> Result<(), AllocError>
    requires flags { length used.now ≡ length functions.now }
    ensures { OnOk result (places.new.items ≡ places.old.items
        ++ flat_map places_of_body (those_in (picked functions.now used.now))) }
{
    for (index, function) in functions.iter().enumerate() {
        if used[index] {
            push_values(places, function.at(), function.variables().len())?;
            push_places(places, function.lines())?;
        }
    }
    Ok(())
}

/// Adds this place the given number of times: each word of a starting value stands where FUNCTION
/// does.
fn push_values(places: &mut Vec<usize>, at: usize, many: usize) -> Result<(), AllocError>
    ensures { OnOk result (places.new.items ≡ places.old.items ++ replicate many at) }
{
    for _ in 0..many {
        places.push(at)?;
    }
    Ok(())
}

/// Adds the place of each word of these lines.
fn push_places(places: &mut Vec<usize>, lines: &[Line<Place, usize>]) -> Result<(), AllocError>
    ensures { OnOk result
        (places.new.items ≡ places.old.items ++ flat_map places_in lines.now) }
{
    for line in lines {
        line.push_places(places)?;
    }
    Ok(())
}
