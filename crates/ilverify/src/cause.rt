//! Causes of a refusal, of which one is reported.

ghost use Rattle.std.specs.Prelude.{◌≡◌};
ghost use Rattle.ilcode.specs.declared.word.Word.{Word};
ghost use Rattle.ilverify.specs.Refusals.{HasOneCause};

use iltypes::Range;

/// Why a word is refused.
#[derive(Clone, Copy, PartialEq, Eq, Debug)]
pub enum Cause {
    /// The word takes no values of these kinds.
    WrongType,
    /// The word takes the current result, and there may be none.
    NoResult,
    /// `)` where nothing is open.
    EmptyNesting,
    /// A parenthesis stays open at the end of a program, or the 33rd is opened.
    OpenNesting,
    /// The divisor may be 0.
    MayBeZero,
    /// The number may be outside the range that is allowed.
    OutOfRange {
        /// The range that the number is known to lie in.
        found: Range,
        /// The range that it has to lie in.
        allowed: Range,
    },
    /// A result may leave 64 signed bits.
    TooBig,
    /// A jump leads backward, past the start of the next program, or past the end.
    BadJump,
    /// A path holds more calls of request blocks than a scan may make requests.
    TooManyRequests,
    /// The word names a slot, a constant, a port or a block instance that its table does not have,
    /// or stores to an output; or in a function it names what is not its own.
    BadSlot,
    /// Some path has more words than a scan may take.
    TooLong,
    /// The function that is called is not there or not before its caller, or the call begins a
    /// chain of too many.
    BadCall,
}

impl Cause {
    ghost use Rattle.ilverify.specs.Causes.{refusal_number};

    /// The number that is printed: 2 to 13 (profile).
    pub fn number(self) -> u8
        ensures { result ≡ refusal_number self }
    {
        match self {
            Cause::WrongType => 2,
            Cause::NoResult => 3,
            Cause::EmptyNesting => 4,
            Cause::OpenNesting => 5,
            Cause::MayBeZero => 6,
            Cause::OutOfRange { .. } => 7,
            Cause::TooBig => 8,
            Cause::BadJump => 9,
            Cause::TooManyRequests => 10,
            Cause::BadSlot => 11,
            Cause::TooLong => 12,
            Cause::BadCall => 13,
        }
    }
}

/// One cause is reported at a word. It does nothing: its contract is the law.
pub fn least_cause_is_one()
    ensures { (word : Word) → HasOneCause word }
{}
