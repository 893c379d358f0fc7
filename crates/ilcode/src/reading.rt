//! What bits mean.

ghost use Rattle.std.specs.Prelude.{◌≡◌, ◌<◌};
ghost use Rattle.ilcode.specs.Reading.{meaning, operator_of, type_of, operand_of, target_of};

use crate::word::{Target, Word, WordOperand};
use iltypes::{Condition, Function, IntegerType, Operator};

/// What the bits mean, if they are those of a word.
pub(crate) fn meaning(bits: u32) -> Word
    ensures { result ≡ meaning bits }
{
    let op = bits % 64;
    let kind = bits / 64 % 4;
    let a = bits / 256 % 4096;
    let b = bits / 1_048_576;
    match op {
        0 => Word::Load {
            negated: false,
            operand: operand_of(kind, a),
        },
        1 => Word::Load {
            negated: true,
            operand: operand_of(kind, a),
        },
        2 => Word::Store {
            negated: false,
            variable: target_of(kind, a),
        },
        3 => Word::Store {
            negated: true,
            variable: target_of(kind, a),
        },
        4 => Word::Set(target_of(kind, a)),
        5 => Word::Reset(target_of(kind, a)),
        12 => Word::Transform(Function::Not),
        26 => Word::Transform(Function::Abs),
        27 => Word::Transform(Function::Convert(type_of(a))),
        28 => Word::Jump {
            condition: Condition::Always,
            target: a + 4096 * b,
        },
        29 => Word::Jump {
            condition: Condition::IfTrue,
            target: a + 4096 * b,
        },
        30 => Word::Jump {
            condition: Condition::IfFalse,
            target: a + 4096 * b,
        },
        31 => Word::Pass {
            port: (b % 16) as u8,
            block: (b / 16) as u16,
            operand: operand_of(kind, a),
        },
        32 => Word::Call(a as u16),
        33 => Word::Close,
        34 => Word::Open(operator_of(a)),
        35 => Word::Give {
            operand: operand_of(kind, a),
            slot: b as u16,
        },
        36 => Word::Invoke(a as u16),
        _ => Word::Apply(operator_of(op), operand_of(kind, a)),
    }
}

/// An operand by its kind and number.
fn operand_of(kind: u32, a: u32) -> WordOperand
    requires { a < 4096 }
    ensures { result ≡ operand_of kind a }
{
    match kind {
        1 => WordOperand::Slot(a as u16),
        2 => WordOperand::Constant(a as u16),
        _ => WordOperand::Port {
            port: (a % 16) as u8,
            block: (a / 16) as u16,
        },
    }
}

/// What is stored to, by its kind and number.
fn target_of(kind: u32, a: u32) -> Target
    requires { a < 4096 }
    ensures { result ≡ target_of kind a }
{
    match kind {
        1 => Target::Slot(a as u16),
        _ => Target::Port {
            port: (a % 16) as u8,
            block: (a / 16) as u16,
        },
    }
}

/// The type that a conversion is to, by its number in the word.
#[inline(always)]
pub fn type_of(a: u32) -> IntegerType
    ensures { result ≡ type_of a }
{
    match a {
        0 => IntegerType::Sint,
        1 => IntegerType::Int,
        2 => IntegerType::Dint,
        3 => IntegerType::Usint,
        4 => IntegerType::Uint,
        _ => IntegerType::Udint,
    }
}

/// The operator of an operation, by its number in the word.
fn operator_of(op: u32) -> Operator
    ensures { result ≡ operator_of op }
{
    match op {
        6 => Operator::And { negated: false },
        7 => Operator::And { negated: true },
        8 => Operator::Or { negated: false },
        9 => Operator::Or { negated: true },
        10 => Operator::Xor { negated: false },
        11 => Operator::Xor { negated: true },
        13 => Operator::Add,
        14 => Operator::Sub,
        15 => Operator::Mul,
        16 => Operator::Div,
        17 => Operator::Mod,
        18 => Operator::Gt,
        19 => Operator::Ge,
        20 => Operator::Eq,
        21 => Operator::Ne,
        22 => Operator::Le,
        23 => Operator::Lt,
        24 => Operator::Min,
        _ => Operator::Max,
    }
}
