//! Reserved words (IEC 61131-3, 2.1.3 and table 52; which there are is this project's profile).

ghost use Rattle.std.specs.Prelude.{◌≡◌, MatchOption, map};
ghost use Rattle.std.specs.Str.{str_eq_ignore_ascii_case};
ghost use Rattle.iltokens.specs.declared.keyword.Keyword.{Keyword};
ghost use Rattle.iltokens.specs.Keywords.{IsSpelled};
ghost use Rattle.iltokens.specs.KeywordSteps.{lookup, keyword, row_of, row_view, words_by};

/// A reserved word, in any letter case. None is a name.
#[derive(Clone, Copy, PartialEq, Eq)]
pub enum Keyword {
    // Operators with their modifiers (3.2.2).
    Ld,
    Ldn,
    St,
    Stn,
    S,
    R,
    And,
    Andn,
    Or,
    Orn,
    Xor,
    Xorn,
    Not,
    Add,
    Sub,
    Mul,
    Div,
    Mod,
    Gt,
    Ge,
    Eq,
    Ne,
    Le,
    Lt,
    Jmp,
    Jmpc,
    Jmpcn,
    Cal,
    Calc,
    Calcn,
    Ret,
    Retc,
    Retcn,
    // Functions (2.5.1.5).
    Min,
    Max,
    Limit,
    Abs,
    // Conversions of integers (2.5.1.5.1).
    SintToInt,
    SintToDint,
    SintToUsint,
    SintToUint,
    SintToUdint,
    IntToSint,
    IntToDint,
    IntToUsint,
    IntToUint,
    IntToUdint,
    DintToSint,
    DintToInt,
    DintToUsint,
    DintToUint,
    DintToUdint,
    UsintToSint,
    UsintToInt,
    UsintToDint,
    UsintToUint,
    UsintToUdint,
    UintToSint,
    UintToInt,
    UintToDint,
    UintToUsint,
    UintToUdint,
    UdintToSint,
    UdintToInt,
    UdintToDint,
    UdintToUsint,
    UdintToUint,
    // Types (2.3.1).
    Bool,
    Time,
    Sint,
    Int,
    Dint,
    Usint,
    Uint,
    Udint,
    // Blocks (2.5.2.3, and request blocks of the profile).
    RTrig,
    Ctu,
    Ton,
    GearLevel,
    GearDo,
    GearSet,
    GearPair,
    GearAsk,
    GearRead,
    DevDo,
    DevScheme,
    DevAsk,
    // Words of constants, declarations and configurations.
    True,
    False,
    Type,
    EndType,
    Function,
    EndFunction,
    Program,
    EndProgram,
    Var,
    EndVar,
    VarInput,
    VarExternal,
    VarGlobal,
    Configuration,
    EndConfiguration,
    Resource,
    EndResource,
    On,
    At,
    Task,
    Single,
    Interval,
    Priority,
    With,
}

/// Words, one after another.
type Words = &'static [Keyword];

// The reserved words, by first letters.

const A_WORDS: Words = &[
    Keyword::And,
    Keyword::Andn,
    Keyword::Add,
    Keyword::Abs,
    Keyword::At,
];

const B_WORDS: Words = &[Keyword::Bool];

const C_WORDS: Words = &[
    Keyword::Cal,
    Keyword::Calc,
    Keyword::Calcn,
    Keyword::Ctu,
    Keyword::Configuration,
];

const D_WORDS: Words = &[
    Keyword::Div,
    Keyword::DintToSint,
    Keyword::DintToInt,
    Keyword::DintToUsint,
    Keyword::DintToUint,
    Keyword::DintToUdint,
    Keyword::Dint,
    Keyword::DevDo,
    Keyword::DevScheme,
    Keyword::DevAsk,
];

const E_WORDS: Words = &[
    Keyword::Eq,
    Keyword::EndType,
    Keyword::EndFunction,
    Keyword::EndProgram,
    Keyword::EndVar,
    Keyword::EndConfiguration,
    Keyword::EndResource,
];

const F_WORDS: Words = &[Keyword::False, Keyword::Function];

const G_WORDS: Words = &[
    Keyword::Gt,
    Keyword::Ge,
    Keyword::GearLevel,
    Keyword::GearDo,
    Keyword::GearSet,
    Keyword::GearPair,
    Keyword::GearAsk,
    Keyword::GearRead,
];

const I_WORDS: Words = &[
    Keyword::IntToSint,
    Keyword::IntToDint,
    Keyword::IntToUsint,
    Keyword::IntToUint,
    Keyword::IntToUdint,
    Keyword::Int,
    Keyword::Interval,
];

const J_WORDS: Words = &[Keyword::Jmp, Keyword::Jmpc, Keyword::Jmpcn];

const L_WORDS: Words = &[
    Keyword::Ld,
    Keyword::Ldn,
    Keyword::Le,
    Keyword::Lt,
    Keyword::Limit,
];

const M_WORDS: Words = &[Keyword::Mul, Keyword::Mod, Keyword::Min, Keyword::Max];

const N_WORDS: Words = &[Keyword::Not, Keyword::Ne];

const O_WORDS: Words = &[Keyword::Or, Keyword::Orn, Keyword::On];

const P_WORDS: Words = &[Keyword::Program, Keyword::Priority];

const R_WORDS: Words = &[
    Keyword::R,
    Keyword::Ret,
    Keyword::Retc,
    Keyword::Retcn,
    Keyword::RTrig,
    Keyword::Resource,
];

const S_WORDS: Words = &[
    Keyword::St,
    Keyword::Stn,
    Keyword::S,
    Keyword::Sub,
    Keyword::SintToInt,
    Keyword::SintToDint,
    Keyword::SintToUsint,
    Keyword::SintToUint,
    Keyword::SintToUdint,
    Keyword::Sint,
    Keyword::Single,
];

const T_WORDS: Words = &[
    Keyword::Time,
    Keyword::Ton,
    Keyword::True,
    Keyword::Type,
    Keyword::Task,
];

const U_WORDS: Words = &[
    Keyword::UsintToSint,
    Keyword::UsintToInt,
    Keyword::UsintToDint,
    Keyword::UsintToUint,
    Keyword::UsintToUdint,
    Keyword::UintToSint,
    Keyword::UintToInt,
    Keyword::UintToDint,
    Keyword::UintToUsint,
    Keyword::UintToUdint,
    Keyword::UdintToSint,
    Keyword::UdintToInt,
    Keyword::UdintToDint,
    Keyword::UdintToUsint,
    Keyword::UdintToUint,
    Keyword::Usint,
    Keyword::Uint,
    Keyword::Udint,
];

const V_WORDS: Words = &[
    Keyword::Var,
    Keyword::VarInput,
    Keyword::VarExternal,
    Keyword::VarGlobal,
];

const W_WORDS: Words = &[Keyword::With];

const X_WORDS: Words = &[Keyword::Xor, Keyword::Xorn];

/// The reserved words that begin with a letter, which is given in lower case.
#[tactic(auto, unfolding(crate::specs::KeywordSteps::words_by, crate::specs::KeywordSteps::word_rows))]
fn words_by(letter: u8) -> Words
    ensures { row_view result ≡ words_by letter }
{
    match letter {
        b'a' => A_WORDS,
        b'b' => B_WORDS,
        b'c' => C_WORDS,
        b'd' => D_WORDS,
        b'e' => E_WORDS,
        b'f' => F_WORDS,
        b'g' => G_WORDS,
        b'i' => I_WORDS,
        b'j' => J_WORDS,
        b'l' => L_WORDS,
        b'm' => M_WORDS,
        b'n' => N_WORDS,
        b'o' => O_WORDS,
        b'p' => P_WORDS,
        b'r' => R_WORDS,
        b's' => S_WORDS,
        b't' => T_WORDS,
        b'u' => U_WORDS,
        b'v' => V_WORDS,
        b'w' => W_WORDS,
        b'x' => X_WORDS,
        _ => &[],
    }
}

/// Whether both are spelled alike, without regard to letter case.
fn is_alike(one: &[u8], other: &[u8]) -> bool
    ensures { result ≡ str_eq_ignore_ascii_case one.now other.now }
{
    one.eq_ignore_ascii_case(other)
}

/// The word that the table has for `text`.
fn lookup(mut table: &[Keyword], text: &[u8]) -> Option<Keyword>
    ensures { result ≡ lookup (map row_of table.entry.now) text.now }
{
    'table: while let [word, rest @ ..] = table {
        if is_alike(word.spelling().as_bytes(), text) {
            return Some(*word);
        }
        table = rest;
    }
    None
}

/// The reserved word that is spelled like `text`.
fn word_of(text: &[u8]) -> Option<Keyword>
    ensures { result ≡ keyword text.now }
{
    let [first, ..] = text else {
        return None;
    };
    lookup(words_by(first.to_ascii_lowercase()), text)
}

/// The reserved word that a text is, in any letter case.
pub fn keyword_of(text: &[u8]) -> Option<Keyword>
    ensures { MatchOption result
        ((word : Keyword) → ¬ IsSpelled text.now word)
        (λ word. IsSpelled text.now word) }
{
    word_of(text)
}
