//! What is said of the causes of a code, and what may cure them.

use crate::mismatch::Mismatch;
use crate::refused::{Refused, input_of};
use Line::{Input, Limited, Nearest, Operand, Text, WithLimits};
use ilblocks::{BlockKind, PortName};
use ilcode::{Word, WordOperand};
use iltypes::{Function, Operator, Range};
use ilverify::{Cause, Known};

/// What a cause means, what helps, lines of another text, and the changes that are tried.
#[derive(Clone, Copy)]
pub(crate) struct Said {
    pub what: &'static str,
    pub cure: &'static str,
    pub line: Line,
    pub tries: &'static [Try],
}

/// Lines of another text.
#[derive(Clone, Copy)]
pub(crate) enum Line {
    Text(&'static str),
    /// The most that an input may be, given to it; a short address where that is asked for.
    Input,
    /// The line at fault with the nearest number that is allowed as its operand.
    Operand,
    /// The limits, then a store.
    Limited,
    /// The nearest number that is allowed, loaded.
    Nearest,
    /// The limits, then the line at fault.
    WithLimits,
}

/// A change that may cure a refusal, and what is said of the cure where it does, if that is other
/// than what is said of the cause.
#[derive(Clone, Copy)]
pub(crate) struct Try(pub Change, pub &'static str);

/// A change of a line that is refused.
#[derive(Clone, Copy)]
pub(crate) enum Change {
    /// The operand, or that of the load before, which is 1 or 0, becomes TRUE or FALSE.
    Truth,
    /// The operand is compared with 0 in parentheses.
    Comparison,
    /// These lines come before it.
    Before(&'static str),
    /// The operators come before it that keep the number within what is allowed.
    Limits,
    /// What is computed is jumped past where a comparison of the divisor is TRUE: the lines of the
    /// guard, and that of its label behind what is computed.
    Guard(&'static str, &'static str),
}

/// What is said of a refused word.
pub(crate) fn said_of(refused: &Refused) -> &'static Said {
    let word = refused.names.code.get(refused.refusal.word);
    match refused.refusal.cause {
        Cause::WrongType => said_of_type(word),
        Cause::NoResult => &NO_RESULT,
        Cause::MayBeZero => said_of_divisor(word, refused.mismatch),
        Cause::OutOfRange { found, .. } => said_of_number(refused, word, found),
        Cause::TooBig => &TOO_BIG,
        Cause::TooManyRequests => &REQUESTS,
        Cause::TooLong => &TOO_LONG,
        Cause::BadCall => &BAD_CALL,
        _ => &UNKNOWN,
    }
}

/// What is said of a word that takes no values of these kinds.
fn said_of_type(word: Option<Word>) -> &'static Said {
    match word {
        Some(Word::Transform(Function::Not)) => &NOT_OF_NUMBER,
        Some(Word::Apply(Operator::And { .. }, WordOperand::Constant(_))) => &MASK,
        Some(Word::Pass { .. }) => &GIVEN_TYPE,
        Some(Word::Load { .. }) => &LOADED_TYPE,
        Some(Word::Set(_) | Word::Reset(_)) => &SET_TYPE,
        _ => &ANY_TYPE,
    }
}

/// What is said of a word whose divisor is 0 or may be.
fn said_of_divisor(word: Option<Word>, divisor: Option<Mismatch>) -> &'static Said {
    match word {
        Some(Word::Apply(_, WordOperand::Constant(_))) => &WRITTEN_ZERO,
        _ if is_zero(divisor) => &FOUND_ZERO,
        Some(Word::Apply(_, WordOperand::Port { .. })) => &PORT_DIVISOR,
        Some(Word::Close) => &CLOSED_DIVISOR,
        _ => &DIVISOR,
    }
}

/// Whether a divisor is 0 for certain.
fn is_zero(divisor: Option<Mismatch>) -> bool {
    match divisor {
        Some(divisor) => matches!(divisor.found, Known::Int(Range { lo: 0, hi: 0 })),
        None => false,
    }
}

/// What is said of a word whose number may not fit: of an input of a block, or of another.
fn said_of_number(refused: &Refused, word: Option<Word>, found: Range) -> &'static Said {
    match (input_of(refused.names.code, refused.refusal.word), word) {
        (Some((_, PortName::Bus)), _) if refused.asked.is_bound => &BOUND_BUS,
        (Some((_, PortName::Bus)), _) => &LONE_BUS,
        (_, Some(Word::Pass { .. })) => &GIVEN_NUMBER,
        (_, Some(Word::Give { operand, .. })) => said_of_operand(operand),
        _ => said_of_result(found),
    }
}

/// What is said of an operand of a call of a function that may not fit.
fn said_of_operand(operand: WordOperand) -> &'static Said {
    match operand {
        WordOperand::Constant(_) => &WRITTEN_OPERAND,
        _ => &COMPUTED_OPERAND,
    }
}

/// What is said of a result that may not fit: one that is always the same, that of an answer, or
/// another.
fn said_of_result(found: Range) -> &'static Said {
    match (found.lo, found.hi) {
        (lo, hi) if lo == hi => &WRITTEN_NUMBER,
        (0, 258) => &ANSWER,
        _ => &COMPUTED_NUMBER,
    }
}

/// Nothing is tried.
const NOTHING: &[Try] = &[];

/// What is tried of a number that may not fit.
const LIMITS: &[Try] = &[Try(Change::Limits, "")];

/// What is tried of a value of the wrong type.
const TYPES: &[Try] = &[
    Try(
        Change::Truth,
        "write TRUE or FALSE: 1 and 0 are numbers here",
    ),
    Try(Change::Before("NE 0"), COMPARED),
    Try(Change::Comparison, COMPARED),
];

const COMPARED: &str = "AND, OR, XOR, NOT, S, R, N, C and CN take truth values, arithmetic takes\n\
    numbers: compare the number first";

/// What is tried of a divisor that may be 0.
const GUARDS: &[Try] = &[
    Try(Change::Guard("\nEQ 0\nJMPC past\n", "\npast:"), PASSED),
    Try(Change::Guard("\nEQ 0\nJMPC past_1\n", "\npast_1:"), PASSED),
    Try(Change::Guard("\nLT 1\nJMPC past\n", "\npast:"), ABOVE),
    Try(Change::Guard("\nLT 1\nJMPC past_1\n", "\npast_1:"), ABOVE),
];

const PASSED: &str = "jump past it where the divisor is 0, or give that a range without 0";

const ABOVE: &str = "jump past it where the divisor is 0 or less, or give that a range without 0";

/// What is tried of a number that may leave 64 bits.
const BIG: &[Try] = &[
    Try(Change::Before("MIN 1000000"), SMALLER),
    Try(Change::Before("MIN 1000000\nMAX -1000000"), SMALLER),
    Try(Change::Before("MIN 1000"), SMALLER),
    Try(Change::Before("MIN 1000\nMAX -1000"), SMALLER),
];

const SMALLER: &str = "declare smaller ranges, or limit the number before";

/// What is said of a cause: texts, and lines of another text.
macro_rules! said {
    ($what:tt $cure:literal $line:expr) => { said![$what $cure $line, NOTHING] };
    ($what:tt $cure:literal $line:expr, $tries:expr) => {
        Said { what: $what, cure: $cure, line: $line, tries: $tries }
    };
}

const TYPE: &str = "a value of the wrong type";

static NOT_OF_NUMBER: Said = said![TYPE
    "NOT takes a truth value: EQ 0 says that a level is off, and SUB gives what it\n\
    lacks to 254" Text("LD 254\nSUB level")];

static MASK: Said = said![TYPE
    "AND takes truth values: MOD 16 gives the lowest four bits of a number, and\n\
    DIV 16, MOD 2 and EQ 1 give its next bit" Text("LD lux\nMOD 16"), TYPES];

static GIVEN_TYPE: Said = said![TYPE
    "compare a number to make a truth value of it, or choose a number by a jump, and\n\
    store it to the input before the call"
    Text("LD level\nNE 0\nST rest.IN\nCAL rest(PT := T#3m)"), TYPES];

static LOADED_TYPE: Said = said![TYPE
    "LDN loads the opposite of a truth value: load a number with LD, and turn its\n\
    sign with MUL -1" Text("LD lamp"), TYPES];

static SET_TYPE: Said = said![TYPE
    "S and R take truth values, and set or reset one: store a number with ST"
    Text("ST lamp"), TYPES];

static ANY_TYPE: Said = said![TYPE
    "AND, OR, XOR, NOT, S, R, N, C and CN take truth values, arithmetic takes\n\
    numbers, EQ and NE take two of one kind, and a variable takes its own: choose\n\
    a number by a jump, and compare a number to make a truth value of it"
    Text("LD button\nJMPC bright\nLD 50\nJMP set\nbright: LD 200\nset: ST level"), TYPES];

const IS_ZERO: &str = "a divisor that is 0";

const MAY_BE_ZERO: &str = "a divisor that may be 0";

static WRITTEN_ZERO: Said = said![IS_ZERO "write another number" Text("DIV 2")];

static FOUND_ZERO: Said = said![IS_ZERO
    "what stands before it lets 0 alone through, as a jump that is the wrong way\n\
    round: JMPC jumps where the comparison is TRUE, JMPCN where it is FALSE"
    Text("LD lamps\nEQ 0\nJMPC dark\nLD power\nDIV lamps")];

static PORT_DIVISOR: Said = said![MAY_BE_ZERO
    "store it to a variable that has a range without 0, as n : UINT (1..1000), and\n\
    divide by that" Text("LD visits.CV\nLIMIT 1, 1000\nST n\nLD power\nDIV n")];

static CLOSED_DIVISOR: Said = said![MAY_BE_ZERO
    "limit it before the ): MAX 1 makes 1 of 0, and of all that is below" Text("MAX 1\n)")];

static DIVISOR: Said = said![MAY_BE_ZERO
    "give it a range without 0, or bring it there before" Text("n : INT (1..100);"), GUARDS];

const NOT_FITTING: &str = "a number that does not fit";

const MAY_NOT_FIT: &str = "a number that may not fit";

static BOUND_BUS: Said = said![MAY_NOT_FIT
    "write a bus of the binding, or let its line `buses` have one more" Input];

static LONE_BUS: Said = said![MAY_NOT_FIT
    "without --bind there is bus 0 alone: give the binding with --bind FILE, or\n\
    write bus 0" Input];

static GIVEN_NUMBER: Said = said![MAY_NOT_FIT
    "write a number that the block takes; one that is computed has to be limited\n\
    before" Input];

static WRITTEN_OPERAND: Said = said![NOT_FITTING
    "write a number that is allowed, or declare the input wider" Operand];

static COMPUTED_OPERAND: Said = said![MAY_NOT_FIT
    "limit the operand before, in a variable of its own, or declare the\n\
    input wider" Limited];

static WRITTEN_NUMBER: Said = said![NOT_FITTING
    "write a number that is allowed, or declare what it goes to wider" Nearest];

static ANSWER: Said = said![MAY_NOT_FIT
    "of an answer 255 is no level, 256 says that none came, 257 that it was damaged,\n\
    and 258 that none is there yet: jump past the store of these"
    Text("LD answer\nGT 254\nJMPC keep\nLD answer\nST lamp\nkeep:")];

static COMPUTED_NUMBER: Said = said![MAY_NOT_FIT
    "limit the number before, or declare what it goes to wider" WithLimits, LIMITS];

static NO_RESULT: Said = said!["a use of the current result where there may be none"
    "load a value first, on each way that leads here" Text("LD lamp")];

static TOO_BIG: Said = said!["a number that may leave 64 bits"
    "declare smaller ranges, and write a DIV or a limit before the next MUL"
    Text("LD lux\nMUL share\nDIV 1000\nMUL gain"), BIG];

static REQUESTS: Said = said!["more than 16 requests in one scan"
    "send from one scan to the next, or put calls on ways that exclude each\n\
    other: ways count whatever their jumps test" Text("JMPC later")];

static TOO_LONG: Said = said!["a path of over 16,777,216 words"
    "call fewer functions in functions, or put calls on ways that exclude each\n\
    other" Text("JMPC later")];

static BAD_CALL: Said = said!["a call of a function that may not stand there"
    "a function calls those before it alone, and at most 8 calls are open at once"
    Text("(nothing)")];

static UNKNOWN: Said = said!["a code that no text has" "report it" Text("(nothing)")];

/// The commands of a block, in lines; none where it has no input for them.
pub(crate) fn commands_of(kind: BlockKind) -> &'static str {
    match kind {
        BlockKind::GearDo => {
            "CMD of GEAR_DO: 0 OFF, 1 UP, 2 DOWN, 3 STEP UP, 4 STEP DOWN,\n    \
             5 RECALL MAX LEVEL, 6 RECALL MIN LEVEL, 7 STEP DOWN AND OFF,\n    \
             8 ON AND STEP UP, 9 GO TO LAST ACTIVE LEVEL,\n    \
             10 to 25 GO TO SCENE 0 to 15\n"
        }
        BlockKind::GearSet => {
            "CMD of GEAR_SET: 0 MAX LEVEL, 1 MIN LEVEL, 2 SYSTEM FAILURE LEVEL,\n    \
             3 POWER ON LEVEL, 4 FADE TIME, 5 FADE RATE, 6 EXTENDED FADE TIME,\n    \
             7 to 22 SCENE 0 to 15\n"
        }
        BlockKind::GearPair => {
            "CMD of GEAR_PAIR: 0 RESET, 1 STORE ACTUAL LEVEL IN DTR0,\n    \
             2 to 17 REMOVE FROM SCENE 0 to 15, 18 to 33 ADD TO GROUP 0 to 15,\n    \
             34 to 49 REMOVE FROM GROUP 0 to 15\n"
        }
        BlockKind::GearAsk => {
            "CMD of GEAR_ASK: 0 STATUS, 1 CONTROL GEAR PRESENT, 2 LAMP FAILURE,\n    \
             3 LAMP POWER ON, 8 CONTENT DTR0, 16 ACTUAL LEVEL, 17 MAX LEVEL,\n    \
             18 MIN LEVEL, 25 to 40 SCENE LEVEL 0 to 15, 41 GROUPS 0 to 7,\n    \
             42 GROUPS 8 to 15; the others are the queries between\n"
        }
        BlockKind::DevDo => "CMD of DEV_DO: 0 ENABLE INSTANCE, 1 DISABLE INSTANCE\n",
        BlockKind::DevAsk => { "CMD of DEV_ASK: 0 INSTANCE TYPE, 1 EVENT SCHEME, 2 INPUT VALUE\n" }
        _ => "",
    }
}
