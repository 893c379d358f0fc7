//! What is known of an operand, what a store writes, and what a body may name.

ghost use Rattle.std.specs.Prelude.{◌≡◌, slice_get};
ghost use Rattle.std.specs.List.{list_any};
ghost use Rattle.ilcode.specs.Stores.{type_of_port, type_of_input};
ghost use Rattle.ilcode.specs.Listings.{shape_of, body_at, slots_start};
ghost use Rattle.ilverify.specs.Operands.{known_of, known_of_result, type_of_variable};
ghost use Rattle.ilverify.specs.Operands.{may_name, may_set, may_store, may_write};
ghost use Rattle.ilverify.specs.Operands.{is_own, is_input, is_before, is_writable};

use crate::entry::Entry;
use crate::known::Known;
use ilcode::{Code, FunctionBody, Target, WordOperand};
use iltypes::IlType;

/// The type of a port, where the code has the block instance and its kind the port.
fn type_of_port(code: &Code, block: u16, port: u8) -> Option<IlType>
    ensures { result ≡ type_of_port (shape_of code.now) block port }
{
    let buses = code.buses();
    match code.kinds().get(usize::from(block)) {
        Some(kind) => kind.port_type(buses, usize::from(port)),
        None => None,
    }
}

/// The type of an input, where the code has the block instance and its kind the input.
fn type_of_input(code: &Code, block: u16, port: u8) -> Option<IlType>
    ensures { result ≡ type_of_input (shape_of code.now) block port }
{
    let buses = code.buses();
    match code.kinds().get(usize::from(block)) {
        Some(kind) => kind.input_type(buses, usize::from(port)),
        None => None,
    }
}

/// What is known of an operand, where its table has it: of a port that it is of its type.
pub(crate) fn known_of(code: &Code, entry: &Entry, operand: WordOperand) -> Option<Known>
    ensures { result ≡ known_of code.now entry.now operand }
{
    match operand {
        WordOperand::Slot(slot) => entry.slots.get(usize::from(slot)),
        WordOperand::Constant(constant) => {
            code.constants()
                .get(usize::from(constant))
                .copied()
                .map(Known::of_value)
        }
        WordOperand::Port { port, block } => type_of_port(code, block, port).map(Known::of),
    }
}

/// The type of what a store writes, where its table has it.
pub(crate) fn type_of_variable(code: &Code, variable: Target) -> Option<IlType>
    ensures { result ≡ type_of_variable code.now variable }
{
    match variable {
        Target::Slot(slot) => code.slots().get(usize::from(slot)).copied(),
        Target::Port { port, block } => type_of_port(code, block, port),
    }
}

/// What is known of the result of a function, where the code has it: that it is of its type.
pub(crate) fn known_of_result(code: &Code, function: usize) -> Option<Known>
    ensures { result ≡ known_of_result code.now (slice_get code.now.functions function) }
{
    match code.functions().get(function) {
        Some(body) => {
            code.slots()
                .get(body.first.saturating_add(body.inputs))
                .copied()
                .map(Known::of)
        }
        None => None,
    }
}

/// The number of a body's first slot.
fn slots_start(code: &Code, body: usize) -> usize
    ensures { result ≡ slots_start code.now body }
{
    if body == 0 {
        0
    } else {
        code.slots_end(body - 1)
    }
}

/// Whether the slot is one of the body's.
fn is_own(code: &Code, body: usize, slot: usize) -> bool
    ensures { result ≡ is_own code.now body slot }
{
    slots_start(code, body) <= slot && slot < code.slots_end(body)
}

/// Whether the slot is an input of the function.
fn is_input(slot: usize, function: &FunctionBody) -> bool
    ensures { result ≡ is_input slot function.now }
{
    function.first <= slot && slot - function.first < function.inputs
}

/// Whether the slot is an input of one of the functions.
fn has_input(functions: &[FunctionBody], slot: usize) -> bool
    ensures { result ≡ list_any (is_input slot) functions.now }
{
    functions.iter().any(|function| is_input(slot, function))
}

/// Whether the slot stands before the body's, as each does for the programs.
fn is_before(code: &Code, body: usize, slot: usize) -> bool
    ensures { result ≡ is_before code.now body slot }
{
    body == 0 || slot < slots_start(code, body)
}

/// Whether the body may write the slot: it is its own, or an input of a function that it may call.
fn is_writable(code: &Code, body: usize, slot: usize) -> bool
    ensures { result ≡ is_writable code.now body slot }
{
    is_own(code, body, slot) || is_before(code, body, slot) && has_input(code.functions(), slot)
}

/// Whether the word at the place, which is one of the body, may name the operand.
pub(crate) fn may_name(code: &Code, place: usize, body: usize, operand: WordOperand) -> bool
    requires { body ≡ body_at code.now place }
    ensures { result ≡ may_name code.now place operand }
{
    match operand {
        WordOperand::Slot(slot) => is_own(code, body, usize::from(slot)),
        WordOperand::Constant(_) => true,
        WordOperand::Port { .. } => body == 0,
    }
}

/// Whether the word at the place, which is one of the body, may write it: a variable of these, or
/// in the programs an input.
pub(crate) fn may_write(code: &Code, place: usize, body: usize, variable: Target) -> bool
    requires { body ≡ body_at code.now place }
    ensures { result ≡ may_write code.now place variable }
{
    match variable {
        Target::Slot(slot) => is_writable(code, body, usize::from(slot)),
        Target::Port { port, block } => body == 0 && type_of_input(code, block, port).is_some(),
    }
}

/// Whether S and R at the place, which is one of the body, may write what is stored to.
pub(crate) fn may_set(code: &Code, place: usize, body: usize, variable: Target) -> bool
    requires { body ≡ body_at code.now place }
    ensures { result ≡ may_set code.now place variable }
{
    match variable {
        Target::Slot(slot) => is_own(code, body, usize::from(slot)),
        Target::Port { .. } => may_write(code, place, body, variable),
    }
}

/// Whether ST, or where it negates STN, at the place, which is one of the body, may write it: an
/// input of a function is given a value as it is.
pub(crate) fn may_store(
    code: &Code,
    place: usize,
    body: usize,
    negated: bool,
    variable: Target,
) -> bool
    requires { body ≡ body_at code.now place }
    ensures { result ≡ may_store negated code.now place variable }
{
    if negated {
        may_set(code, place, body, variable)
    } else {
        may_write(code, place, body, variable)
    }
}
