//! What operators do, by their words (IEC 61131-3, 3.2.2 and 2.5.1.5).

ghost use Rattle.std.specs.Prelude.{◌≡◌, IfSome, IsTrue};
ghost use Rattle.iltext.specs.Roles.{converts_to, role_of_word, role_of};
ghost use Rattle.iltext.specs.Roles.{may_nest, inner_role_of, is_inner};

use crate::token::TokenKind;
use iltokens::{Delimiter, Keyword, What};
use iltypes::{Condition, Function, IntegerType, Operator};

/// What an operator does, which also says what is written after it.
#[derive(Clone, Copy)]
pub enum OperatorRole {
    /// LD, LDN: an operand.
    Load { negated: bool },
    /// An operand, or parentheses where the operator may be deferred.
    Apply(Operator),
    /// NOT, ABS, a conversion: nothing.
    Transform(Function),
    /// LIMIT: two operands.
    Limit,
    /// ST, STN: a variable or a port.
    Store { negated: bool },
    /// S: a variable or a port.
    Set,
    /// R: a variable or a port.
    Reset,
    /// JMP, JMPC, JMPCN: a label.
    Jump(Condition),
    /// RET, RETC, RETCN: nothing.
    Return(Condition),
    /// CAL, CALC, CALCN: a block instance, and arguments in parentheses where some are written.
    Call(Condition),
}

/// The type that a conversion of integers gives (2.5.1.5.1).
fn converts_to(word: Keyword) -> Option<IntegerType>
    ensures { result ≡ converts_to word }
{
    match word {
        Keyword::SintToInt => Some(IntegerType::Int),
        Keyword::SintToDint => Some(IntegerType::Dint),
        Keyword::SintToUsint => Some(IntegerType::Usint),
        Keyword::SintToUint => Some(IntegerType::Uint),
        Keyword::SintToUdint => Some(IntegerType::Udint),
        Keyword::IntToSint => Some(IntegerType::Sint),
        Keyword::IntToDint => Some(IntegerType::Dint),
        Keyword::IntToUsint => Some(IntegerType::Usint),
        Keyword::IntToUint => Some(IntegerType::Uint),
        Keyword::IntToUdint => Some(IntegerType::Udint),
        Keyword::DintToSint => Some(IntegerType::Sint),
        Keyword::DintToInt => Some(IntegerType::Int),
        Keyword::DintToUsint => Some(IntegerType::Usint),
        Keyword::DintToUint => Some(IntegerType::Uint),
        Keyword::DintToUdint => Some(IntegerType::Udint),
        Keyword::UsintToSint => Some(IntegerType::Sint),
        Keyword::UsintToInt => Some(IntegerType::Int),
        Keyword::UsintToDint => Some(IntegerType::Dint),
        Keyword::UsintToUint => Some(IntegerType::Uint),
        Keyword::UsintToUdint => Some(IntegerType::Udint),
        Keyword::UintToSint => Some(IntegerType::Sint),
        Keyword::UintToInt => Some(IntegerType::Int),
        Keyword::UintToDint => Some(IntegerType::Dint),
        Keyword::UintToUsint => Some(IntegerType::Usint),
        Keyword::UintToUdint => Some(IntegerType::Udint),
        Keyword::UdintToSint => Some(IntegerType::Sint),
        Keyword::UdintToInt => Some(IntegerType::Int),
        Keyword::UdintToDint => Some(IntegerType::Dint),
        Keyword::UdintToUsint => Some(IntegerType::Usint),
        Keyword::UdintToUint => Some(IntegerType::Uint),
        _ => None,
    }
}

/// What a word does as an operator.
#[tactic(auto, unfolding(crate::specs::Roles::role_of_word))]
fn role_of_word(word: Keyword) -> Option<OperatorRole>
    ensures { result ≡ role_of_word word }
{
    let role = match word {
        // Loads and stores, with the modifier N.
        Keyword::Ld => OperatorRole::Load { negated: false },
        Keyword::Ldn => OperatorRole::Load { negated: true },
        Keyword::St => OperatorRole::Store { negated: false },
        Keyword::Stn => OperatorRole::Store { negated: true },
        Keyword::S => OperatorRole::Set,
        Keyword::R => OperatorRole::Reset,
        // Jumps and returns, with the modifiers C and CN.
        Keyword::Jmp => OperatorRole::Jump(Condition::Always),
        Keyword::Jmpc => OperatorRole::Jump(Condition::IfTrue),
        Keyword::Jmpcn => OperatorRole::Jump(Condition::IfFalse),
        Keyword::Ret => OperatorRole::Return(Condition::Always),
        Keyword::Retc => OperatorRole::Return(Condition::IfTrue),
        Keyword::Retcn => OperatorRole::Return(Condition::IfFalse),
        // Calls, with the modifiers C and CN.
        Keyword::Cal => OperatorRole::Call(Condition::Always),
        Keyword::Calc => OperatorRole::Call(Condition::IfTrue),
        Keyword::Calcn => OperatorRole::Call(Condition::IfFalse),
        // Truth values.
        Keyword::And => OperatorRole::Apply(Operator::And { negated: false }),
        Keyword::Andn => OperatorRole::Apply(Operator::And { negated: true }),
        Keyword::Or => OperatorRole::Apply(Operator::Or { negated: false }),
        Keyword::Orn => OperatorRole::Apply(Operator::Or { negated: true }),
        Keyword::Xor => OperatorRole::Apply(Operator::Xor { negated: false }),
        Keyword::Xorn => OperatorRole::Apply(Operator::Xor { negated: true }),
        Keyword::Not => OperatorRole::Transform(Function::Not),
        // Numbers.
        Keyword::Add => OperatorRole::Apply(Operator::Add),
        Keyword::Sub => OperatorRole::Apply(Operator::Sub),
        Keyword::Mul => OperatorRole::Apply(Operator::Mul),
        Keyword::Div => OperatorRole::Apply(Operator::Div),
        Keyword::Mod => OperatorRole::Apply(Operator::Mod),
        // Comparisons.
        Keyword::Gt => OperatorRole::Apply(Operator::Gt),
        Keyword::Ge => OperatorRole::Apply(Operator::Ge),
        Keyword::Eq => OperatorRole::Apply(Operator::Eq),
        Keyword::Ne => OperatorRole::Apply(Operator::Ne),
        Keyword::Le => OperatorRole::Apply(Operator::Le),
        Keyword::Lt => OperatorRole::Apply(Operator::Lt),
        // Functions.
        Keyword::Min => OperatorRole::Apply(Operator::Min),
        Keyword::Max => OperatorRole::Apply(Operator::Max),
        Keyword::Limit => OperatorRole::Limit,
        Keyword::Abs => OperatorRole::Transform(Function::Abs),
        // Conversions, and no other word.
        _ => OperatorRole::Transform(Function::Convert(converts_to(word)?)),
    };
    Some(role)
}

/// What a token does as an operator.
pub fn role_of(kind: TokenKind) -> Option<OperatorRole>
    ensures { result ≡ role_of kind }
{
    match kind {
        TokenKind::Good(What::Keyword(word)) => role_of_word(word),
        TokenKind::Good(What::Delimiter(Delimiter::Ampersand)) => role_of_word(Keyword::And),
        TokenKind::Good(What::Delimiter(Delimiter::AmpersandNot)) => role_of_word(Keyword::Andn),
        _ => None,
    }
}

/// Whether an operator may stand in parentheses.
fn may_nest(role: OperatorRole) -> bool
    ensures { result ≡ may_nest role }
{
    !matches!(
        role,
        OperatorRole::Store { .. }
            | OperatorRole::Set
            | OperatorRole::Reset
            | OperatorRole::Jump(_)
            | OperatorRole::Return(_)
            | OperatorRole::Call(_),
    )
}

/// What a token does as an operator in parentheses.
pub(crate) fn inner_role_of(kind: TokenKind) -> Option<OperatorRole>
    ensures value { result ≡ inner_role_of kind }
    ensures nests { IfSome result (λ role. IsTrue (may_nest role)) }
{
    match role_of(kind) {
        Some(role) => { if may_nest(role) { Some(role) } else { None } }
        None => None,
    }
}

/// Whether a reserved word may stand in parentheses by itself, so R not as the name of a port.
pub fn is_inner(word: Keyword) -> bool
    ensures { result ≡ is_inner word }
{
    match word {
        Keyword::True | Keyword::False => true,
        _ => match role_of_word(word) {
            Some(role) => may_nest(role),
            None => false,
        },
    }
}
