//! The bits of words.

ghost use Rattle.std.specs.Prelude.{◌≡◌, ◌<◌, ◌↔◌, IsTrue};
ghost use Rattle.ilcode.specs.Words.{HasWord, IsNear, IsNearTarget, spelling, fields, number_of};
ghost use Rattle.ilcode.specs.Words.{on_operand, on_target, operator_number, type_number};
ghost use Rattle.ilcode.specs.Words.{jump_number, port_number};

use crate::word::{Target, Word, WordOperand};
use iltypes::{Condition, Function, IntegerType, Operator};

/// Whether the format can hold a word.
pub(crate) fn has_word(word: &Word) -> bool
    ensures { IsTrue result ↔ HasWord word.now }
{
    match *word {
        Word::Load { operand, .. } | Word::Apply(_, operand) => is_near(operand),
        Word::Store { variable, .. } | Word::Set(variable) | Word::Reset(variable) => {
            is_near_target(variable)
        }
        Word::Transform(_) | Word::Close => true,
        Word::Jump { target, .. } => target < 16_777_216,
        Word::Pass {
            port,
            block,
            operand,
        } => port < 16 && block < 256 && is_near(operand),
        Word::Call(number) | Word::Invoke(number) => number < 4096,
        Word::Open(operator) => operator.may_defer(),
        Word::Give { operand, slot } => is_near(operand) && slot < 4096,
    }
}

/// Whether it can hold an operand.
fn is_near(operand: WordOperand) -> bool
    ensures { IsTrue result ↔ IsNear operand }
{
    match operand {
        WordOperand::Slot(slot) => slot < 4096,
        WordOperand::Constant(constant) => constant < 4096,
        WordOperand::Port { port, block } => port < 16 && block < 256,
    }
}

/// Whether it can hold what is stored to.
fn is_near_target(variable: Target) -> bool
    ensures { IsTrue result ↔ IsNearTarget variable }
{
    match variable {
        Target::Slot(slot) => slot < 4096,
        Target::Port { port, block } => port < 16 && block < 256,
    }
}

/// The bits of a word that the format can hold.
pub(crate) fn spell(word: &Word) -> u32
    requires { HasWord word.now }
    ensures { result ≡ spelling word.now }
{
    match *word {
        Word::Load {
            negated: false,
            operand,
        } => spell_operand(0, operand, 0),
        Word::Load {
            negated: true,
            operand,
        } => spell_operand(1, operand, 0),
        Word::Store {
            negated: false,
            variable,
        } => spell_target(2, variable),
        Word::Store {
            negated: true,
            variable,
        } => spell_target(3, variable),
        Word::Set(variable) => spell_target(4, variable),
        Word::Reset(variable) => spell_target(5, variable),
        Word::Apply(operator, operand) => spell_operand(operator_number(operator), operand, 0),
        Word::Transform(Function::Not) => number_of(12, 0, 0, 0),
        Word::Transform(Function::Abs) => number_of(26, 0, 0, 0),
        Word::Transform(Function::Convert(target)) => number_of(27, 0, type_number(target), 0),
        Word::Jump { condition, target } => {
            number_of(jump_number(condition), 0, target % 4096, target / 4096)
        }
        Word::Pass {
            port,
            block,
            operand,
        } => spell_operand(31, operand, port_number(port, block)),
        Word::Call(block) => number_of(32, 0, block as u32, 0),
        Word::Close => number_of(33, 0, 0, 0),
        Word::Open(operator) => number_of(34, 0, operator_number(operator), 0),
        Word::Give { operand, slot } => spell_operand(35, operand, slot as u32),
        Word::Invoke(function) => number_of(36, 0, function as u32, 0),
    }
}

/// The bits of these fields.
fn number_of(op: u32, kind: u32, a: u32, b: u32) -> u32
    requires op { op < 64 }
    requires kind { kind < 4 }
    requires a { a < 4096 }
    requires b { b < 4096 }
    ensures { result ≡ number_of (fields op kind a b) }
{
    (op + 64 * kind) + 256 * a + 1_048_576 * b
}

/// The bits of an operation on an operand.
fn spell_operand(op: u32, operand: WordOperand, b: u32) -> u32
    requires op { op < 64 }
    requires near { IsNear operand }
    requires b { b < 4096 }
    ensures { result ≡ number_of (on_operand op operand b) }
{
    match operand {
        WordOperand::Slot(slot) => number_of(op, 1, slot as u32, b),
        WordOperand::Constant(constant) => number_of(op, 2, constant as u32, b),
        WordOperand::Port { port, block } => number_of(op, 3, port_number(port, block), b),
    }
}

/// The bits of an operation on what is stored to.
fn spell_target(op: u32, variable: Target) -> u32
    requires op { op < 64 }
    requires near { IsNearTarget variable }
    ensures { result ≡ number_of (on_target op variable) }
{
    match variable {
        Target::Slot(slot) => number_of(op, 1, slot as u32, 0),
        Target::Port { port, block } => number_of(op, 3, port_number(port, block), 0),
    }
}

/// The number of a port of an instance.
fn port_number(port: u8, block: u16) -> u32
    requires port { port < 16 }
    requires block { block < 256 }
    ensures value { result ≡ port_number port block }
    ensures small { result < 4096 }
{
    block as u32 * 16 + port as u32
}

/// The operation of a jump.
fn jump_number(condition: Condition) -> u32
    ensures value { result ≡ jump_number condition }
    ensures small { result < 64 }
{
    match condition {
        Condition::Always => 28,
        Condition::IfTrue => 29,
        Condition::IfFalse => 30,
    }
}

/// The number of a type that a conversion is to, in the word.
pub fn type_number(target: IntegerType) -> u32
    ensures value { result ≡ type_number target }
    ensures small { result < 64 }
{
    match target {
        IntegerType::Sint => 0,
        IntegerType::Int => 1,
        IntegerType::Dint => 2,
        IntegerType::Usint => 3,
        IntegerType::Uint => 4,
        IntegerType::Udint => 5,
    }
}

/// The operation of an operator.
fn operator_number(operator: Operator) -> u32
    ensures value { result ≡ operator_number operator }
    ensures small { result < 64 }
{
    match operator {
        Operator::And { negated: false } => 6,
        Operator::And { negated: true } => 7,
        Operator::Or { negated: false } => 8,
        Operator::Or { negated: true } => 9,
        Operator::Xor { negated: false } => 10,
        Operator::Xor { negated: true } => 11,
        Operator::Add => 13,
        Operator::Sub => 14,
        Operator::Mul => 15,
        Operator::Div => 16,
        Operator::Mod => 17,
        Operator::Gt => 18,
        Operator::Ge => 19,
        Operator::Eq => 20,
        Operator::Ne => 21,
        Operator::Le => 22,
        Operator::Lt => 23,
        Operator::Min => 24,
        Operator::Max => 25,
    }
}
