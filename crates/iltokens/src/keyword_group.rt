//! What reserved words are, by groups that are asked about together.

ghost use Rattle.std.specs.Prelude.{◌≡◌};
ghost use Rattle.iltokens.specs.KeywordGroups.{group_of};

use crate::keyword::Keyword;

/// A group of reserved words (IEC 61131-3, table 52, 2.5 and 2.3; the groups are this project's).
#[derive(Clone, Copy, PartialEq, Eq)]
pub enum KeywordGroup {
    /// LD and LDN.
    Load,
    /// ST, STN, S and R: the current result is stored, or TRUE or FALSE where it is TRUE.
    Store,
    /// AND, OR and XOR, with their modifier N.
    Logic,
    /// NOT, which takes no operand.
    Complement,
    /// ADD, SUB, MUL, DIV and MOD.
    Arithmetic,
    /// GT, GE, EQ, NE, LE and LT.
    Comparison,
    /// JMP, with its modifiers.
    Jump,
    /// CAL, with its modifiers.
    Call,
    /// RET, with its modifiers.
    Return,
    /// MIN and MAX, which take one operand.
    Extremum,
    /// LIMIT, which takes two operands.
    Limitation,
    /// ABS, which takes no operand.
    Magnitude,
    /// A conversion of integers, as INT_TO_DINT.
    Conversion,
    /// BOOL and TIME.
    ElementaryType,
    /// A type of whole numbers, as INT.
    IntegerType,
    /// A function block of the standard, as TON.
    StandardBlock,
    /// A block that makes requests to a bus, as GEAR_LEVEL (profile).
    RequestBlock,
    /// TRUE and FALSE.
    Truth,
    /// Another word of declarations and configurations, as VAR or TASK.
    Declaration,
}

impl Keyword {
    /// The group of the word.
    pub fn group(self) -> KeywordGroup
        ensures { result ≡ group_of self }
    {
        match self {
            Keyword::Ld | Keyword::Ldn => KeywordGroup::Load,
            Keyword::St | Keyword::Stn | Keyword::S | Keyword::R => KeywordGroup::Store,
            Keyword::And
            | Keyword::Andn
            | Keyword::Or
            | Keyword::Orn
            | Keyword::Xor
            | Keyword::Xorn => KeywordGroup::Logic,
            Keyword::Not => KeywordGroup::Complement,
            Keyword::Add | Keyword::Sub | Keyword::Mul | Keyword::Div | Keyword::Mod =>
                KeywordGroup::Arithmetic,
            Keyword::Gt | Keyword::Ge | Keyword::Eq | Keyword::Ne | Keyword::Le | Keyword::Lt =>
                KeywordGroup::Comparison,
            Keyword::Jmp | Keyword::Jmpc | Keyword::Jmpcn => KeywordGroup::Jump,
            Keyword::Cal | Keyword::Calc | Keyword::Calcn => KeywordGroup::Call,
            Keyword::Ret | Keyword::Retc | Keyword::Retcn => KeywordGroup::Return,
            Keyword::Min | Keyword::Max => KeywordGroup::Extremum,
            Keyword::Limit => KeywordGroup::Limitation,
            Keyword::Abs => KeywordGroup::Magnitude,
            Keyword::SintToInt
            | Keyword::SintToDint
            | Keyword::SintToUsint
            | Keyword::SintToUint
            | Keyword::SintToUdint => KeywordGroup::Conversion,
            Keyword::IntToSint
            | Keyword::IntToDint
            | Keyword::IntToUsint
            | Keyword::IntToUint
            | Keyword::IntToUdint => KeywordGroup::Conversion,
            Keyword::DintToSint
            | Keyword::DintToInt
            | Keyword::DintToUsint
            | Keyword::DintToUint
            | Keyword::DintToUdint => KeywordGroup::Conversion,
            Keyword::UsintToSint
            | Keyword::UsintToInt
            | Keyword::UsintToDint
            | Keyword::UsintToUint
            | Keyword::UsintToUdint => KeywordGroup::Conversion,
            Keyword::UintToSint
            | Keyword::UintToInt
            | Keyword::UintToDint
            | Keyword::UintToUsint
            | Keyword::UintToUdint => KeywordGroup::Conversion,
            Keyword::UdintToSint
            | Keyword::UdintToInt
            | Keyword::UdintToDint
            | Keyword::UdintToUsint
            | Keyword::UdintToUint => KeywordGroup::Conversion,
            Keyword::Bool | Keyword::Time => KeywordGroup::ElementaryType,
            Keyword::Sint
            | Keyword::Int
            | Keyword::Dint
            | Keyword::Usint
            | Keyword::Uint
            | Keyword::Udint => KeywordGroup::IntegerType,
            Keyword::RTrig | Keyword::Ctu | Keyword::Ton => KeywordGroup::StandardBlock,
            Keyword::GearLevel
            | Keyword::GearDo
            | Keyword::GearSet
            | Keyword::GearPair
            | Keyword::GearAsk
            | Keyword::GearRead
            | Keyword::DevDo
            | Keyword::DevScheme
            | Keyword::DevAsk => KeywordGroup::RequestBlock,
            Keyword::True | Keyword::False => KeywordGroup::Truth,
            Keyword::Type
            | Keyword::EndType
            | Keyword::Function
            | Keyword::EndFunction
            | Keyword::Program
            | Keyword::EndProgram
            | Keyword::Var
            | Keyword::EndVar
            | Keyword::VarInput
            | Keyword::VarExternal
            | Keyword::VarGlobal
            | Keyword::Configuration
            | Keyword::EndConfiguration
            | Keyword::Resource
            | Keyword::EndResource
            | Keyword::On
            | Keyword::At
            | Keyword::Task
            | Keyword::Single
            | Keyword::Interval
            | Keyword::Priority
            | Keyword::With => KeywordGroup::Declaration,
        }
    }
}
