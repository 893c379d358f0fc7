//! Which functions a task uses.
//!
//! A function calls those before it alone. So the functions are gone through from the last one to
//! the first: what uses one is known when it is met. The time grows with the number of lines.

ghost use Rattle.std.specs.Prelude.{◌≡◌, ℕ, List, flat_map, length, map, is_some, IfOk};
ghost use Rattle.ilsource.specs.Uses.{uses_in, uses_of_piece};
ghost use Rattle.ilplan.specs.Functions.{calls, invokes, is_number};
ghost use Rattle.ilplan.specs.Plans.{all_lines, used_by};
ghost use Rattle.ilplan.specs.UsageSteps.{AreAdded, AreFound, callee_in, pieces_in};

use crate::function::UserFunction;
use crate::instance::ProgramInstance;
use crate::place::Place;
use ilsource::{Action, Instruction, Line, Piece};
use std::alloc::{AllocError, Global};

/// For each function whether the lines of the instances use it.
pub(crate) fn used_functions(
    alloc: Global,
    functions: &[UserFunction],
    instances: &[ProgramInstance],
) -> Result<Vec<bool>, AllocError>
    ensures { IfOk result
        (λ used. used.items ≡ map is_some (used_by functions.now instances.now)) }
{
    let mut used = vec![in alloc; false; functions.len()]?;
    let below = functions.len();
    for instance in instances {
        add_lines(&mut used, below, instance.lines());
    }
    add_callees(&mut used, functions, instances);
    Ok(used)
}

/// Adds the functions that those which the instances call use: each is known when it is met, since
/// it is called by those behind it alone.
fn add_callees(used: &mut [bool], functions: &[UserFunction], instances: &[ProgramInstance])
    requires { AreFound (all_lines instances.now) functions.now (length functions.now) used.old }
    ensures { AreFound (all_lines instances.now) functions.now 0 used.new }
{
    for number in (0..functions.len()).rev() {
        if used[number] {
            add_lines(used, number, functions[number].lines());
        }
    }
}

/// Adds the functions below a number that lines call.
fn add_lines(used: &mut [bool], below: usize, lines: &[Line<Place, usize>])
    ensures { AreAdded below (calls lines.now) used.old used.new }
{
    for line in lines {
        add_line(used, below, line);
    }
}

/// Adds the functions below a number that a line calls.
fn add_line(used: &mut [bool], below: usize, line: &Line<Place, usize>)
    ensures { AreAdded below (invokes (uses_in line.now)) used.old used.new }
{
    add_pieces(used, below, pieces_in(line));
    match callee_in(line) {
        Some(function) => add_place(used, below, function),
        None => {}
    }
}

/// What stands in the parentheses of a line.
fn pieces_in(line: &Line<Place, usize>) -> &[Piece<Place>]
    ensures { result.now ≡ pieces_in line.now }
{
    match &line.instruction {
        Some(Instruction::Deferred { nested, .. }) => nested.pieces(),
        _ => &[],
    }
}

/// The function that a line calls.
fn callee_in(line: &Line<Place, usize>) -> Option<Place>
    ensures { result ≡ callee_in line.now }
{
    match line.instruction.as_ref()? {
        Instruction::Invoke { function, .. } => Some(*function),
        _ => None,
    }
}

/// Adds the functions below a number that pieces call.
fn add_pieces(used: &mut [bool], below: usize, pieces: &[Piece<Place>])
    ensures { AreAdded below (invokes (flat_map uses_of_piece pieces.now)) used.old used.new }
{
    for piece in pieces {
        add_piece(used, below, *piece);
    }
}

/// Adds the function that a piece calls, if it is below a number: the first piece of the call names
/// it.
fn add_piece(used: &mut [bool], below: usize, piece: Piece<Place>)
    ensures { AreAdded below (invokes (uses_of_piece piece)) used.old used.new }
{
    match piece.action {
        Action::Hand(function) => add_place(used, below, function),
        _ => {}
    }
}

/// Adds the function that is named, if it is below a number.
fn add_place(used: &mut [bool], below: usize, place: Place)
    ensures { AreAdded below (is_number place) used.old used.new }
{
    if let Place::Function(number) = place {
        let number = usize::from(number);
        if number < below && number < used.len() {
            used[number] = true;
        }
    }
}
