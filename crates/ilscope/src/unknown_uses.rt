//! Names that are not declared where they are used.

ghost use Rattle.std.specs.Prelude.{◌≡◌, ◌↔◌, IsSome, IsTrue, Some};
ghost use Rattle.ilsource.specs.Names.{SameName};
ghost use Rattle.ildeclared.specs.Faults.{IsNextOf, OfCause, SomeOf};
ghost use Rattle.ildeclared.specs.declared.fault.NameCause.TheVariants.{Unknown};
ghost use Rattle.ilscope.specs.Declarations.{DeclaredProgram, body_at};
ghost use Rattle.ilscope.specs.UseFaults.{IsNoVariable, IsUnknownSymbol, IsUnknownUse};
ghost use Rattle.ilscope.specs.UseFaults.{functions_above};

use crate::body_number::BodyNumber;
use crate::calls::function_called;
use crate::ports::{place_of_port, port_of};
use crate::scope::Scope;
use ildeclared::{Found, NameCause, found_where};
use ilsource::{Name, Operand, Purpose, Symbol, Use};

/// The fault of a use of what is not declared for it, in the program or the function with this
/// number.
pub(crate) fn unknown_use(
    scope: &Scope<'_>,
    body: BodyNumber,
    used: Use<Symbol>,
    after: Option<Found>,
) -> Option<Found>
    requires { IsSome (body_at scope.now.tree body) }
    ensures { (p : DeclaredProgram) → body_at scope.now.tree body ≡ Some p
        → IsNextOf after
        (OfCause Unknown (λ place. IsUnknownUse scope.now.tree p place used)) result }
{
    let Operand::Name(symbol) = used.operand else {
        return None;
    };
    unknown_symbol(scope, body, used.purpose, symbol, after)
}

/// The fault of a symbol for which nothing is declared.
fn unknown_symbol(
    scope: &Scope<'_>,
    body: BodyNumber,
    purpose: Purpose,
    symbol: Symbol,
    after: Option<Found>,
) -> Option<Found>
    requires { IsSome (body_at scope.now.tree body) }
    ensures { (p : DeclaredProgram) → body_at scope.now.tree body ≡ Some p
        → IsNextOf after
        (OfCause Unknown
        (λ place. IsUnknownSymbol scope.now.tree p place purpose symbol)) result }
{
    let (is_declared, at) = match symbol {
        Symbol::Variable(name) => (is_variable(scope, body, name), name.from),
        Symbol::Port { block, port } => (
            port_of(scope, body, block, port).is_some(),
            place_of_port(purpose, block, port),
        ),
        Symbol::Block(name) => (scope.block(body, name).is_some(), name.from),
        Symbol::Function(name) => (is_function(scope, body, name), name.from),
    };
    found_where(!is_declared, at, NameCause::Unknown, after)
}

/// Whether the program or the function with this number has a variable or an external of this name.
fn is_variable(scope: &Scope<'_>, body: BodyNumber, name: Name) -> bool
    requires { IsSome (body_at scope.now.tree body) }
    ensures { (p : DeclaredProgram) → body_at scope.now.tree body ≡ Some p
        → IsTrue result ↔ ¬ IsNoVariable scope.now.tree.text p name }
{
    scope.variable_number(body, name).is_some() || scope.external_number(body, name).is_some()
}

/// Whether a function of this name is declared above the program or the function with this number.
fn is_function(scope: &Scope<'_>, body: BodyNumber, name: Name) -> bool
    requires { IsSome (body_at scope.now.tree body) }
    ensures { (p : DeclaredProgram) → body_at scope.now.tree body ≡ Some p
        → IsTrue result ↔ SomeOf (λ f. SameName scope.now.tree.text name f.function.name)
        (functions_above scope.now.tree p) }
{
    function_called(scope, body, name).is_some()
}
