//! Ports of block instances.

ghost use Rattle.std.specs.Prelude.{◌≡◌, IsSome, Some};
ghost use Rattle.ildeclared.specs.Faults.{IsNextOf, OfCause};
ghost use Rattle.ildeclared.specs.declared.fault.NameCause.TheVariants.{WritesInput};
ghost use Rattle.ilscope.specs.Declarations.{DeclaredProgram, body_at};
ghost use Rattle.ilscope.specs.UseFaults.{place_of_port, port_number, writes, WritesOutput};

use crate::body_number::BodyNumber;
use crate::scope::Scope;
use ilblocks::BlockKind;
use ildeclared::{Found, NameCause, found_where};
use ilsource::{Name, Operand, Purpose, Symbol, Use};

/// The kind of a block instance of the program or the function with this number, and the number of
/// its port of this name; none where there is no such port.
pub fn port_of(
    scope: &Scope<'_>,
    body: BodyNumber,
    block: Name,
    port: Name,
) -> Option<(BlockKind, usize)>
    requires { IsSome (body_at scope.now.tree body) }
    ensures { (p : DeclaredProgram) → body_at scope.now.tree body ≡ Some p
        → result ≡ port_number scope.now.tree.text p block port }
{
    let (_, kind) = scope.block(body, block)?;
    let port = kind.port_named(port.text(scope.source().text()))?;
    Some((kind, port))
}

/// The place of a port at fault: its own name as that of an argument, else the block's.
pub(crate) fn place_of_port(purpose: Purpose, block: Name, port: Name) -> usize
    ensures { result ≡ place_of_port purpose block port }
{
    match purpose {
        Purpose::Pass => port.from,
        _ => block.from,
    }
}

/// The fault of a use that stores to an output, in the program or the function with this number.
pub(crate) fn output_written(
    scope: &Scope<'_>,
    body: BodyNumber,
    used: Use<Symbol>,
    after: Option<Found>,
) -> Option<Found>
    requires { IsSome (body_at scope.now.tree body) }
    ensures { (p : DeclaredProgram) → body_at scope.now.tree body ≡ Some p
        → IsNextOf after
        (OfCause WritesInput (λ place. WritesOutput scope.now.tree.text p place used)) result }
{
    let Operand::Name(Symbol::Port { block, port }) = used.operand else {
        return None;
    };
    if !writes(used.purpose) {
        return None;
    }
    let (kind, place) = port_of(scope, body, block, port)?;
    // Whether a port is an input does not depend on the number of buses.
    let is_output = kind.input_type(1, place).is_none();
    let at = place_of_port(used.purpose, block, port);
    found_where(is_output, at, NameCause::WritesInput, after)
}

/// Whether what is used so is stored to.
fn writes(purpose: Purpose) -> bool
    ensures { result ≡ writes purpose }
{
    matches!(purpose, Purpose::Write | Purpose::Pass)
}
