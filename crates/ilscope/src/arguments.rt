//! Ports that are given again in one call.

ghost use Rattle.std.specs.Prelude.{◌≡◌, IfOk, Some, filter_map};
ghost use Rattle.ilsource.specs.Names.{folded};
ghost use Rattle.ildeclared.specs.Faults.{IsNextOf, OfCause};
ghost use Rattle.ildeclared.specs.declared.fault.NameCause.TheVariants.{Twice};
ghost use Rattle.ilscope.specs.Faults.{IsTwiceIn};
ghost use Rattle.ilscope.specs.UseFaults.{port_in, ports_given, IsGivenTwiceIn};

use crate::labels::add_name;
use crate::scope::Scope;
use ildeclared::{Found, Names, lesser_of};
use ilsource::{Argument, Instruction, Line, Name, Symbol};
use std::alloc::{AllocError, Global};

/// The next fault after `after` of a port that a call among one program's lines gives again.
pub(crate) fn given_twice(
    alloc: Global,
    scope: &Scope<'_>,
    lines: &[Line<Symbol, Name>],
    after: Option<Found>,
) -> Result<Option<Found>, AllocError>
    ensures { IfOk result (λ found.
        IsNextOf after (OfCause Twice (IsGivenTwiceIn scope.now.tree.text lines.now)) found) }
{
    let mut least = None;
    for line in lines {
        let again = given_twice_in(alloc, scope, line, after)?;
        least = lesser_of(least, again);
    }
    Ok(least)
}

/// The next such fault after `after` of one line.
fn given_twice_in(
    alloc: Global,
    scope: &Scope<'_>,
    line: &Line<Symbol, Name>,
    after: Option<Found>,
) -> Result<Option<Found>, AllocError>
    ensures { IfOk result (λ found. IsNextOf after
        (OfCause Twice (IsTwiceIn (folded scope.now.tree.text) (ports_given line.now.instruction)))
        found) }
{
    match &line.instruction {
        Some(instruction) => given_twice_by(alloc, scope, instruction, after),
        None => Ok(None),
    }
}

/// The next such fault after `after` of one instruction.
fn given_twice_by(
    alloc: Global,
    scope: &Scope<'_>,
    instruction: &Instruction<Symbol, Name>,
    after: Option<Found>,
) -> Result<Option<Found>, AllocError>
    ensures { IfOk result (λ found. IsNextOf after
        (OfCause Twice (IsTwiceIn (folded scope.now.tree.text)
        (ports_given (Some instruction.now))))
        found) }
{
    match instruction {
        Instruction::Call { arguments, .. } => {
            given_twice_among(alloc, scope, arguments.as_slice(), after)
        }
        _ => Ok(None),
    }
}

/// The next such fault after `after` of one call's arguments.
fn given_twice_among(
    alloc: Global,
    scope: &Scope<'_>,
    arguments: &[Argument<Symbol>],
    after: Option<Found>,
) -> Result<Option<Found>, AllocError>
    ensures { IfOk result (λ found. IsNextOf after (OfCause Twice
        (IsTwiceIn (folded scope.now.tree.text) (filter_map (λ x. port_in x.port) arguments.now)))
        found) }
{
    let mut given = Names::new(alloc);
    let mut least = None;
    for (number, argument) in arguments.iter().enumerate() {
        let again = add_name(
            alloc,
            scope,
            &mut given,
            port_in(argument.port),
            number,
            after,
        )?;
        least = lesser_of(least, again);
    }
    Ok(least)
}

/// The word of the port that an argument gives.
fn port_in(symbol: Symbol) -> Option<Name>
    ensures { result ≡ port_in symbol }
{
    match symbol {
        Symbol::Port { port, .. } => Some(port),
        _ => None,
    }
}
