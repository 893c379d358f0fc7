//! Codes that no text compiles to, with their verdicts: numbers of slots, constants, ports and
//! instances that are not there, parentheses that are not opened or not closed, and jumps that are
//! not lawful. And that thousands of entries share their slots, which no clause can say.

ghost use Rattle.std.specs.Prelude.{IsTrue};
ghost use Rattle.std.specs.List.{AllByRecursion};
ghost use Rattle.ilcode.specs.Words.{HasWord, IsOldWord};

use ilblocks::BlockKind;
use ilcode::{Code, PackedWord, Target, Word, WordOperand, pack};
use iltypes::{Condition, IlType, Operator, Range, Value};
use ilverify::{Known, Slots, VerifyError, verify};
use std::alloc::{AllocError, Global};
use std::test::Fail;

/// The slots: x from 0 to 254, b of BOOL, and n from 0 to 5.
const LEVEL: IlType = IlType::Int(Range { lo: 0, hi: 254 });

const FEW: IlType = IlType::Int(Range { lo: 0, hi: 5 });

const X: WordOperand = WordOperand::Slot(0);

const B: WordOperand = WordOperand::Slot(1);

const N: WordOperand = WordOperand::Slot(2);

const NO_SLOT: WordOperand = WordOperand::Slot(3);

/// The constants 10, TRUE, 0 and -1.
const TEN: WordOperand = WordOperand::Constant(0);

const TRUE: WordOperand = WordOperand::Constant(1);

const ZERO: WordOperand = WordOperand::Constant(2);

const MINUS_ONE: WordOperand = WordOperand::Constant(3);

const NO_CONSTANT: WordOperand = WordOperand::Constant(4);

/// The instances: a TON, and a GEAR_DO.
const TIMER: u16 = 0;

const GEAR: u16 = 1;

const NO_INSTANCE: u16 = 2;

/// The ports of the TON; it has no port of the last number.
const IN: u8 = 0;

const PT: u8 = 1;

const Q: u8 = 2;

const ET: u8 = 3;

const NO_PORT: u8 = 4;

const LD_X: Word = Word::Load {
    negated: false,
    operand: X,
};

const LD_B: Word = Word::Load {
    negated: false,
    operand: B,
};

const LD_N: Word = Word::Load {
    negated: false,
    operand: N,
};

const LD_TEN: Word = Word::Load {
    negated: false,
    operand: TEN,
};

const LD_TRUE: Word = Word::Load {
    negated: false,
    operand: TRUE,
};

const LD_MINUS_ONE: Word = Word::Load {
    negated: false,
    operand: MINUS_ONE,
};

const LD_NO_SLOT: Word = Word::Load {
    negated: false,
    operand: NO_SLOT,
};

const LD_NO_CONSTANT: Word = Word::Load {
    negated: false,
    operand: NO_CONSTANT,
};

const LD_NO_PORT: Word = Word::Load {
    negated: false,
    operand: WordOperand::Port {
        port: NO_PORT,
        block: TIMER,
    },
};

const LD_NO_INSTANCE: Word = Word::Load {
    negated: false,
    operand: WordOperand::Port {
        port: IN,
        block: NO_INSTANCE,
    },
};

const ST_X: Word = Word::Store {
    negated: false,
    variable: Target::Slot(0),
};

const ST_B: Word = Word::Store {
    negated: false,
    variable: Target::Slot(1),
};

const ST_NO_SLOT: Word = Word::Store {
    negated: false,
    variable: Target::Slot(3),
};

const STN_NO_SLOT: Word = Word::Store {
    negated: true,
    variable: Target::Slot(3),
};

const S_NO_SLOT: Word = Word::Set(Target::Slot(3));

const ST_Q: Word = Word::Store {
    negated: false,
    variable: Target::Port {
        port: Q,
        block: TIMER,
    },
};

const ST_ET: Word = Word::Store {
    negated: false,
    variable: Target::Port {
        port: ET,
        block: TIMER,
    },
};

const ST_NO_PORT: Word = Word::Store {
    negated: false,
    variable: Target::Port {
        port: NO_PORT,
        block: TIMER,
    },
};

const S_Q: Word = Word::Set(Target::Port {
    port: Q,
    block: TIMER,
});

const S_NO_PORT: Word = Word::Set(Target::Port {
    port: NO_PORT,
    block: TIMER,
});

/// PT := 10.
const PASS_PT: Word = Word::Pass {
    port: PT,
    block: TIMER,
    operand: TEN,
};

/// Q := TRUE, and Q := 10.
const PASS_Q: Word = Word::Pass {
    port: Q,
    block: TIMER,
    operand: TRUE,
};

const PASS_Q_TEN: Word = Word::Pass {
    port: Q,
    block: TIMER,
    operand: TEN,
};

const PASS_NO_PORT: Word = Word::Pass {
    port: NO_PORT,
    block: TIMER,
    operand: TRUE,
};

const PASS_NO_INSTANCE: Word = Word::Pass {
    port: IN,
    block: NO_INSTANCE,
    operand: TRUE,
};

const PASS_NO_CONSTANT: Word = Word::Pass {
    port: IN,
    block: TIMER,
    operand: NO_CONSTANT,
};

const CALL_TIMER: Word = Word::Call(TIMER);

/// A call that makes a request.
const ASK: Word = Word::Call(GEAR);

const CALL_NOTHING: Word = Word::Call(NO_INSTANCE);

const ADD_NO_SLOT: Word = Word::Apply(Operator::Add, NO_SLOT);

const AND_TEN: Word = Word::Apply(Operator::And { negated: false }, TEN);

const DIV_ZERO: Word = Word::Apply(Operator::Div, ZERO);

const DIV_N: Word = Word::Apply(Operator::Div, N);

const EQ_ZERO: Word = Word::Apply(Operator::Eq, ZERO);

const OPEN: Word = Word::Open(Operator::Add);

const OPEN_EQ: Word = Word::Open(Operator::Eq);

const CLOSE: Word = Word::Close;

/// JMP to the place 0, and so on.
const JMP_0: Word = Word::Jump {
    condition: Condition::Always,
    target: 0,
};

const JMP_1: Word = Word::Jump {
    condition: Condition::Always,
    target: 1,
};

const JMP_2: Word = Word::Jump {
    condition: Condition::Always,
    target: 2,
};

const JMP_3: Word = Word::Jump {
    condition: Condition::Always,
    target: 3,
};

const JMP_4: Word = Word::Jump {
    condition: Condition::Always,
    target: 4,
};

const JMP_5: Word = Word::Jump {
    condition: Condition::Always,
    target: 5,
};

const JMPC_0: Word = Word::Jump {
    condition: Condition::IfTrue,
    target: 0,
};

const JMPC_1: Word = Word::Jump {
    condition: Condition::IfTrue,
    target: 1,
};

const JMPC_3: Word = Word::Jump {
    condition: Condition::IfTrue,
    target: 3,
};

const JMPC_4: Word = Word::Jump {
    condition: Condition::IfTrue,
    target: 4,
};

const JMPC_5: Word = Word::Jump {
    condition: Condition::IfTrue,
    target: 5,
};

const JMPC_6: Word = Word::Jump {
    condition: Condition::IfTrue,
    target: 6,
};

const JMPCN_0: Word = Word::Jump {
    condition: Condition::IfFalse,
    target: 0,
};

/// A code of two programs: its name, the place where the second begins, its words, and the number
/// of the cause and the word, or 0 and the bound where it is accepted.
type Row = (&'static str, usize, &'static [Word], (u8, usize));

/// Numbers of slots and constants that are not there.
const SLOTS: &[Row] = &[
    ("S no slot, no result", 1, &[S_NO_SLOT], (3, 0)),
    ("S no slot", 2, &[LD_B, S_NO_SLOT], (11, 1)),
    ("LD no constant", 1, &[LD_NO_CONSTANT], (11, 0)),
    ("LD no slot", 1, &[LD_NO_SLOT], (11, 0)),
    ("STN of a number", 2, &[LD_TEN, STN_NO_SLOT], (2, 1)),
    ("ST no slot", 2, &[LD_TEN, ST_NO_SLOT], (11, 1)),
    ("ADD no slot", 2, &[LD_TEN, ADD_NO_SLOT], (11, 1)),
    ("ADD to TRUE", 2, &[LD_TRUE, ADD_NO_SLOT], (2, 1)),
    ("ADD, no result", 1, &[ADD_NO_SLOT], (3, 0)),
];

/// Stores to outputs, and to ports that are not there.
const OUTPUTS: &[Row] = &[
    ("ST Q of a number", 2, &[LD_TEN, ST_Q], (2, 1)),
    ("ST Q", 2, &[LD_TRUE, ST_Q], (11, 1)),
    ("ST ET", 2, &[LD_TEN, ST_ET], (11, 1)),
    ("ST ET of -1", 2, &[LD_MINUS_ONE, ST_ET], (7, 1)),
    ("ST no port", 2, &[LD_MINUS_ONE, ST_NO_PORT], (11, 1)),
    ("S Q", 2, &[LD_TRUE, S_Q], (11, 1)),
    ("S no port", 2, &[LD_TRUE, S_NO_PORT], (11, 1)),
    ("ST Q, no result", 1, &[ST_Q], (3, 0)),
    ("S Q, no result", 1, &[S_Q], (3, 0)),
];

/// Ports and instances that are not there.
const INSTANCES: &[Row] = &[
    ("LD no port", 1, &[LD_NO_PORT], (11, 0)),
    ("LD of no instance", 1, &[LD_NO_INSTANCE], (11, 0)),
    ("Q := TRUE", 1, &[PASS_Q], (11, 0)),
    ("Q := 10", 1, &[PASS_Q_TEN], (2, 0)),
    ("no port := TRUE", 1, &[PASS_NO_PORT], (11, 0)),
    ("no instance's := TRUE", 1, &[PASS_NO_INSTANCE], (11, 0)),
    ("IN := no constant", 1, &[PASS_NO_CONSTANT], (11, 0)),
    ("CAL no instance", 1, &[CALL_NOTHING], (11, 0)),
];

/// Arguments apart from a call, and words that no scan reaches.
const ARGUMENTS: &[Row] = &[
    ("the result stays", 3, &[LD_X, PASS_PT, ST_X], (0, 3)),
    ("a number stays", 3, &[LD_X, PASS_PT, ST_B], (2, 2)),
    ("none stays none", 2, &[PASS_PT, ST_X], (3, 1)),
    (
        "an argument removes a mark",
        6,
        &[LD_N, EQ_ZERO, PASS_PT, JMPC_6, LD_TEN, DIV_N],
        (6, 5),
    ),
    (
        "no instance makes no request",
        18,
        &[
            ASK,
            ASK,
            ASK,
            ASK,
            ASK,
            ASK,
            ASK,
            ASK,
            ASK,
            ASK,
            ASK,
            ASK,
            ASK,
            ASK,
            ASK,
            ASK,
            CALL_NOTHING,
            ASK,
        ],
        (11, 16),
    ),
    ("not reached", 3, &[JMP_2, LD_NO_SLOT, LD_X], (0, 2)),
    ("reached", 3, &[JMP_1, LD_NO_SLOT, LD_X], (11, 1)),
];

/// Parentheses that are not opened, or not closed at an end or a start.
const PARENTHESES: &[Row] = &[
    (") without (", 3, &[LD_X, CLOSE, ST_X], (4, 1)),
    (") without a result", 1, &[CLOSE], (3, 0)),
    ("open at the end", 3, &[LD_X, OPEN, LD_X], (5, 2)),
    ("( at the end", 2, &[LD_X, OPEN], (5, 1)),
    ("ST after (", 3, &[LD_X, OPEN, ST_X], (3, 2)),
    (") after (", 3, &[LD_X, OPEN, CLOSE], (3, 2)),
    ("( at a start", 2, &[LD_X, OPEN, LD_X], (5, 1)),
    ("open at a start", 3, &[LD_X, OPEN, LD_X, LD_X], (5, 2)),
    ("a start has no result", 2, &[LD_X, ST_X, ST_X], (3, 2)),
    ("5 before 6", 4, &[LD_X, OPEN, LD_X, DIV_ZERO], (5, 3)),
    (
        "5 before 6, a start",
        4,
        &[LD_X, OPEN, LD_X, DIV_ZERO, LD_X],
        (5, 3),
    ),
    ("2 before 5", 4, &[LD_X, OPEN, LD_X, AND_TEN], (2, 3)),
    (
        "2 before 5, a start",
        4,
        &[LD_X, OPEN, LD_X, AND_TEN, LD_X],
        (2, 3),
    ),
];

/// Parentheses that are closed, with calls, jumps and requests in them.
const CONTENTS: &[Row] = &[
    ("closed at the end", 4, &[LD_X, OPEN, LD_X, CLOSE], (0, 4)),
    (
        "closed at a start",
        4,
        &[LD_X, OPEN, LD_X, CLOSE, LD_X],
        (0, 5),
    ),
    (
        "CAL after (, at the end",
        3,
        &[LD_TEN, OPEN, CALL_TIMER],
        (5, 2),
    ),
    (
        "CAL after (",
        5,
        &[LD_TEN, OPEN, CALL_TIMER, LD_TEN, CLOSE],
        (0, 5),
    ),
    ("JMP in ( )", 5, &[LD_N, OPEN, LD_N, JMP_4, CLOSE], (5, 3)),
    (
        "JMPC in ( )",
        5,
        &[LD_B, OPEN_EQ, LD_B, JMPC_4, CLOSE],
        (5, 3),
    ),
    (
        "JMPC back in ( )",
        5,
        &[LD_B, OPEN_EQ, LD_B, JMPC_0, CLOSE],
        (5, 3),
    ),
    (
        "into ( )",
        6,
        &[LD_B, JMPC_4, LD_N, OPEN, LD_N, CLOSE],
        (5, 3),
    ),
    (
        "over ( )",
        6,
        &[LD_B, JMPC_6, LD_N, OPEN, LD_N, CLOSE, LD_N],
        (0, 7),
    ),
    (
        "( not reached",
        5,
        &[JMP_3, LD_N, OPEN, LD_N, CLOSE],
        (4, 4),
    ),
    (
        "the 17th request comes before )",
        18,
        &[
            ASK, ASK, ASK, ASK, ASK, ASK, ASK, ASK, ASK, ASK, ASK, ASK, ASK, ASK, ASK, ASK, ASK,
            CLOSE,
        ],
        (10, 16),
    ),
    (
        "the 17th request leaves ( open",
        19,
        &[
            ASK, ASK, ASK, ASK, ASK, ASK, ASK, ASK, ASK, ASK, ASK, ASK, ASK, ASK, ASK, ASK, LD_N,
            OPEN, ASK,
        ],
        (5, 18),
    ),
];

/// Jumps from each place to each.
const JUMPS: &[Row] = &[
    ("0 to 0", 2, &[JMP_0, LD_X, LD_X, LD_X], (9, 0)),
    ("0 to 1", 2, &[JMP_1, LD_X, LD_X, LD_X], (0, 4)),
    ("0 to 2", 2, &[JMP_2, LD_X, LD_X, LD_X], (0, 3)),
    (
        "0 to 3, past a start",
        2,
        &[JMP_3, LD_X, LD_X, LD_X],
        (9, 0),
    ),
    (
        "0 to 4, past a start",
        2,
        &[JMP_4, LD_X, LD_X, LD_X],
        (9, 0),
    ),
    ("1 to 0", 2, &[LD_X, JMP_0, LD_X, LD_X], (9, 1)),
    ("1 to 1", 2, &[LD_X, JMP_1, LD_X, LD_X], (9, 1)),
    ("1 to 2", 2, &[LD_X, JMP_2, LD_X, LD_X], (0, 4)),
    (
        "1 to 3, past a start",
        2,
        &[LD_X, JMP_3, LD_X, LD_X],
        (9, 1),
    ),
    ("2 to 3", 2, &[LD_X, LD_X, JMP_3, LD_X], (0, 4)),
    ("2 to the end", 2, &[LD_X, LD_X, JMP_4, LD_X], (0, 3)),
    ("2 past the end", 2, &[LD_X, LD_X, JMP_5, LD_X], (9, 2)),
    ("3 to the end", 2, &[LD_X, LD_X, LD_X, JMP_4], (0, 4)),
];

/// Jumps under a condition.
const CONDITIONS: &[Row] = &[
    ("back, if", 4, &[LD_B, JMPC_0, LD_X, ST_X], (9, 1)),
    ("to itself, if", 4, &[LD_B, JMPC_1, LD_X, ST_X], (9, 1)),
    ("past the end, if", 4, &[LD_B, JMPC_5, LD_X, ST_X], (9, 1)),
    ("past a start, if", 2, &[LD_B, JMPC_3, LD_X, ST_X], (9, 1)),
    ("back, if not", 4, &[LD_B, JMPCN_0, LD_X, ST_X], (9, 1)),
    ("back, of a number", 2, &[LD_X, JMPC_0], (2, 1)),
    ("back, of no result", 1, &[JMPC_0], (3, 0)),
    ("back, if not, of a number", 2, &[LD_X, JMPCN_0], (2, 1)),
    ("back, if not, of no result", 1, &[JMPCN_0], (3, 0)),
];

/// Whether 32 bits can hold each word, and none gives a slot or calls a function.
fn may_pack(words: &[Word]) -> bool
    ensures held { IsTrue result → AllByRecursion HasWord words.now }
    ensures old { IsTrue result → AllByRecursion IsOldWord words.now }
{
    match words {
        [] => true,
        [word, words @ ..] => word.may_pack() && is_old(*word) && may_pack(words),
    }
}

/// Whether a word neither gives a slot nor calls a function.
fn is_old(word: Word) -> bool
    ensures { IsTrue result → IsOldWord word }
{
    !matches!(word, Word::Give { .. } | Word::Invoke(_))
}

/// The code of the words, of which the second program begins at a place; all stand on line 1. It
/// has no functions.
#[tactic(auto, using(crate::proofs::Ones::ones_small, crate::proofs::Functions::none))]
fn code(alloc: Global, start: usize, words: &[Word]) -> Result<Option<Code>, AllocError> {
    if start > words.len() || words.len() > 65_536 || !may_pack(words) {
        return Ok(None);
    }
    let constants = vec![in alloc;
        Value::Int(10),
        Value::Bool(true),
        Value::Int(0),
        Value::Int(-1),
    ]?;
    let slots = vec![in alloc; LEVEL, IlType::Bool, FEW]?;
    let kinds = vec![in alloc; BlockKind::Ton, BlockKind::GearDo]?;
    let starts = vec![in alloc; 0usize, start]?;
    let lines = vec![in alloc; 1u32; words.len()]?;
    let words = pack(alloc, words)?;
    let functions = Vec::new(alloc);
    Ok(Some(Code::new(1, constants, slots, kinds, starts, words, lines, functions)))
}

/// The number of the cause and the word; 0 and the bound, where the code is accepted.
fn verdict(alloc: Global, start: usize, words: &[Word]) -> Result<(u8, usize), Fail> {
    let Some(code) = code(alloc, start, words)? else {
        return Err("it is no code".into());
    };
    match verify(alloc, code) {
        Ok(verified) => Ok((0, verified.bound() as usize)),
        Err(VerifyError::Refused(refusal)) => Ok((refusal.cause.number(), refusal.word)),
        Err(error) => Err(error.into()),
    }
}

/// Fails with the name of the first row whose verdict is another one. A table is short, since the
/// check writes the whole of it for each part that its rows refer to.
fn judge_rows(alloc: Global, rows: &[Row]) -> Result<(), Fail> {
    for (name, start, words, wanted) in rows {
        if verdict(alloc, *start, words)? != *wanted {
            return Err((*name).into());
        }
    }
    Ok(())
}

#[test]
fn numbers_that_no_table_has(rt: HostRuntime) -> Result<(), Fail> {
    judge_rows(rt.alloc(), SLOTS)
}

#[test]
fn outputs_are_not_stored_to(rt: HostRuntime) -> Result<(), Fail> {
    judge_rows(rt.alloc(), OUTPUTS)
}

#[test]
fn instances_that_no_table_has(rt: HostRuntime) -> Result<(), Fail> {
    judge_rows(rt.alloc(), INSTANCES)
}

#[test]
fn arguments_apart_from_a_call(rt: HostRuntime) -> Result<(), Fail> {
    judge_rows(rt.alloc(), ARGUMENTS)
}

#[test]
fn parentheses_that_no_text_has(rt: HostRuntime) -> Result<(), Fail> {
    judge_rows(rt.alloc(), PARENTHESES)
}

#[test]
fn what_stands_in_parentheses(rt: HostRuntime) -> Result<(), Fail> {
    judge_rows(rt.alloc(), CONTENTS)
}

#[test]
fn jumps_that_no_text_has(rt: HostRuntime) -> Result<(), Fail> {
    judge_rows(rt.alloc(), JUMPS)
}

#[test]
fn jumps_under_a_condition(rt: HostRuntime) -> Result<(), Fail> {
    judge_rows(rt.alloc(), CONDITIONS)
}

/// `LD 10`, then `ADD( 10` the given number of times, and then `)` as often.
fn nested(alloc: Global, depth: usize) -> Result<Vec<Word>, AllocError> {
    let mut words = vec![in alloc; LD_TEN]?;
    for _ in 0..depth {
        words.push(OPEN)?;
        words.push(LD_TEN)?;
    }
    for _ in 0..depth {
        words.push(CLOSE)?;
    }
    Ok(words)
}

#[test]
fn the_33rd_parenthesis_is_refused(rt: HostRuntime) -> Result<(), Fail> {
    for (depth, wanted) in [(32, (0, 97)), (33, (5, 65))] {
        let words = nested(rt.alloc(), depth)?;
        let found = verdict(rt.alloc(), words.len(), &words)?;
        assert_eq!(rt; found, wanted, "{depth}");
    }
    // A code of 65,536 words is to have a quarter of a megabyte, beside its lines.
    assert_eq!(rt; size_of::<PackedWord>(), 4);
    Ok(())
}

/// A slot of what was kept, and the greatest number that it may have there; the least is this one
/// too, where it is 7.
const KEPT: [(usize, usize, i64); 5] = [
    (0, 0, 100),
    (64, 63, 7),
    (64, 64, 100),
    (4095, 4095, 100),
    (29_999, 4095, 7),
];

/// What is known of a slot from 0 to 100, or once it is known as 7.
fn known_up_to(most: i64) -> Known {
    if most == 7 {
        Known::Int(Range { lo: 7, hi: 7 })
    } else {
        Known::Int(Range { lo: 0, hi: 100 })
    }
}

/// Copies of these would take 2 gigabytes.
#[test]
fn thousands_share_their_slots(rt: HostRuntime) -> Result<(), Fail> {
    let alloc = rt.alloc();
    let types = vec![in alloc; IlType::Int(Range { lo: 0, hi: 100 }); 4096]?;
    let mut slots = Slots::new(alloc, &types)?;
    let mut kept = Vec::new(alloc);
    for n in 0..30_000usize {
        kept.push(slots.share()?)?;
        slots.set(n % 4096, known_up_to(7))?;
    }
    for (n, slot, most) in KEPT {
        let found = kept.get(n).and_then(|slots| slots.get(slot));
        assert!(rt; found == Some(known_up_to(most)), "{n}");
    }
    Ok(())
}
