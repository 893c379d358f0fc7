//! Worked drives: calls that no scenario makes, as those of several workers, those that are refused
//! and events that wait. The replies were worked by hand from the definitions. The numbers of takes
//! and hands are the places of their events, as clauses say, and are not compared.

use buslink::Mark;
use daliframe::Frame24;
use plant::CallRefusal;
use plantscript::{Driven, Step, StepReply, drive_text};
use std::alloc::{AllocError, Global};
use std::test::Fail;
use wordlines::Binding;

/// A press of the button, instance 2 of the device with short address 5, switches the lamp.
const HOUSE: &str = "PROGRAM sw\n\
    VAR_EXTERNAL lamp : USINT (0..254); END_VAR\n\
    LD lamp\nEQ 0\nJMPC lit\nLD 0\nST lamp\nRET\nlit:\nLD 200\nST lamp\n\
    END_PROGRAM\n\
    CONFIGURATION house\n\
    VAR_GLOBAL\npressed AT %IX0.3 : BOOL;\nlamp AT %QB0.5 : USINT (0..254);\nEND_VAR\n\
    TASK push (SINGLE := pressed, PRIORITY := 1);\nPROGRAM s1 WITH push : sw;\n\
    END_CONFIGURATION\n";

/// Two tasks of one interval and one priority.
const PAIR: &str = "PROGRAM p\nVAR x : BOOL; END_VAR\nLD TRUE\nST x\nEND_PROGRAM\n\
    CONFIGURATION c\n\
    TASK a (INTERVAL := T#100ms, PRIORITY := 1);\nTASK b (INTERVAL := T#100ms, PRIORITY := 1);\n\
    PROGRAM pa WITH a : p;\nPROGRAM pb WITH b : p;\n\
    END_CONFIGURATION\n";

/// The button lights a lamp; a cyclic task beside it asks gear 5 once.
const ASKING: &str = "PROGRAM sw\n\
    VAR_EXTERNAL lamp : USINT (0..254); END_VAR\n\
    LD 200\nST lamp\n\
    END_PROGRAM\n\
    PROGRAM ask\n\
    VAR q : GEAR_ASK; END_VAR\n\
    LD TRUE\nST q.REQ\nCAL q(ADR := 5)\n\
    END_PROGRAM\n\
    CONFIGURATION hall\n\
    VAR_GLOBAL\npressed AT %IX0.3 : BOOL;\nlamp AT %QB0.7 : USINT (0..254);\nEND_VAR\n\
    TASK push (SINGLE := pressed, PRIORITY := 0);\n\
    TASK each_second (INTERVAL := T#1s, PRIORITY := 1);\n\
    PROGRAM one WITH push : sw;\nPROGRAM two WITH each_second : ask;\n\
    END_CONFIGURATION\n";

/// 16 tasks of one priority, which are ready from the beginning.
const MANY: &str = "PROGRAM p\nVAR x : BOOL; END_VAR\nLDN x\nST x\nEND_PROGRAM\n\
    CONFIGURATION many\n\
    TASK t0 (INTERVAL := T#1s, PRIORITY := 1);\nTASK t1 (INTERVAL := T#1s, PRIORITY := 1);\n\
    TASK t2 (INTERVAL := T#1s, PRIORITY := 1);\nTASK t3 (INTERVAL := T#1s, PRIORITY := 1);\n\
    TASK t4 (INTERVAL := T#1s, PRIORITY := 1);\nTASK t5 (INTERVAL := T#1s, PRIORITY := 1);\n\
    TASK t6 (INTERVAL := T#1s, PRIORITY := 1);\nTASK t7 (INTERVAL := T#1s, PRIORITY := 1);\n\
    TASK t8 (INTERVAL := T#1s, PRIORITY := 1);\nTASK t9 (INTERVAL := T#1s, PRIORITY := 1);\n\
    TASK t10 (INTERVAL := T#1s, PRIORITY := 1);\nTASK t11 (INTERVAL := T#1s, PRIORITY := 1);\n\
    TASK t12 (INTERVAL := T#1s, PRIORITY := 1);\nTASK t13 (INTERVAL := T#1s, PRIORITY := 1);\n\
    TASK t14 (INTERVAL := T#1s, PRIORITY := 1);\nTASK t15 (INTERVAL := T#1s, PRIORITY := 1);\n\
    PROGRAM i0 WITH t0 : p;\nPROGRAM i1 WITH t1 : p;\nPROGRAM i2 WITH t2 : p;\n\
    PROGRAM i3 WITH t3 : p;\nPROGRAM i4 WITH t4 : p;\nPROGRAM i5 WITH t5 : p;\n\
    PROGRAM i6 WITH t6 : p;\nPROGRAM i7 WITH t7 : p;\nPROGRAM i8 WITH t8 : p;\n\
    PROGRAM i9 WITH t9 : p;\nPROGRAM i10 WITH t10 : p;\nPROGRAM i11 WITH t11 : p;\n\
    PROGRAM i12 WITH t12 : p;\nPROGRAM i13 WITH t13 : p;\nPROGRAM i14 WITH t14 : p;\n\
    PROGRAM i15 WITH t15 : p;\n\
    END_CONFIGURATION\n";

const WIRES: &str = "buses 1\nsource 0.3 device-instance 5 2\n";

/// A step as a table has it. A turn is a take and a commit, and a push is the button's.
#[derive(Clone, Copy)]
enum Call {
    Tick(u64),
    Push,
    Take(usize),
    Commit(usize),
    Turn(usize),
    Hand(u8),
    Done(u64, &'static [Mark]),
    Down(u8),
}

/// What it is answered; a turn's commit is noted.
#[derive(Clone, Copy, PartialEq, Eq)]
enum Answer {
    Noted,
    Taken(usize),
    Handed,
    Refused(CallRefusal),
    Memory,
}

use Answer::{Handed, Noted, Refused, Taken};
use Call::{Commit, Done, Down, Hand, Push, Take, Tick, Turn};
use CallRefusal::{BusDown, Busy, ClockBack, Full, NothingReady, Stranger};

/// A text that is driven: how many workers and places there are, and each step the given number of
/// times, with its answer.
#[derive(Clone, Copy)]
struct Row {
    name: &'static str,
    text: &'static str,
    workers: usize,
    limit: u64,
    calls: &'static [(u32, Call, Answer)],
}

const ROWS: [Row; 10] = [
    Row {
        name: "a button lights a lamp, with each refusal on the way",
        text: HOUSE,
        workers: 1,
        limit: 100,
        calls: &[
            (1, Take(0), Refused(NothingReady)),
            (1, Push, Noted),
            (1, Take(0), Taken(0)),
            (1, Take(0), Refused(Busy)),
            (1, Take(1), Refused(Stranger)),
            (1, Commit(1), Refused(Stranger)),
            (1, Commit(0), Noted),
            (1, Commit(0), Refused(Stranger)),
            (1, Hand(1), Refused(Stranger)),
            (1, Hand(0), Handed),
            (1, Hand(0), Refused(Busy)),
            (1, Done(2, &[Mark::Quiet]), Refused(Stranger)),
            (1, Done(3, &[]), Refused(Stranger)),
            (1, Done(3, &[Mark::Lost]), Refused(Stranger)),
            (1, Done(3, &[Mark::Lost, Mark::Quiet]), Noted),
            (1, Done(3, &[Mark::Quiet]), Refused(Stranger)),
            (1, Hand(0), Refused(NothingReady)),
            (1, Down(0), Noted),
            (1, Down(0), Refused(BusDown)),
            (1, Hand(0), Refused(BusDown)),
            (1, Push, Refused(BusDown)),
            (1, Down(255), Refused(Stranger)),
        ],
    },
    Row {
        name: "the clock does not go back",
        text: PAIR,
        workers: 1,
        limit: 1_000_000,
        calls: &[
            (2, Tick(5), Noted),
            (1, Tick(4), Refused(ClockBack)),
            (1, Tick(u64::MAX), Noted),
            (1, Tick(0), Refused(ClockBack)),
        ],
    },
    Row {
        name: "of two tasks the one that has been ready longest goes first, and none twice at once",
        text: PAIR,
        workers: 2,
        limit: 100,
        calls: &[
            (1, Turn(0), Taken(0)),
            (1, Tick(100), Noted),
            // The first is ready again, but the second has been ready since the beginning.
            (1, Turn(0), Taken(1)),
            (1, Take(0), Taken(0)),
            (1, Take(1), Refused(NothingReady)),
            (1, Tick(200), Noted),
            // The first is ready once more, but its scan is still open.
            (1, Turn(1), Taken(1)),
            (1, Commit(0), Noted),
            (1, Turn(1), Taken(0)),
        ],
    },
    Row {
        name: "two tasks of one interval take turns",
        text: PAIR,
        workers: 2,
        limit: 100,
        calls: &[
            (1, Take(1), Taken(0)),
            (1, Take(0), Taken(1)),
            (1, Commit(1), Noted),
            (1, Take(1), Refused(NothingReady)),
            (1, Commit(0), Noted),
            (1, Tick(99), Noted),
            (1, Take(0), Refused(NothingReady)),
            (1, Tick(100), Noted),
            (1, Turn(0), Taken(0)),
            (1, Tick(200), Noted),
            // The second has been ready since 100.
            (1, Take(0), Taken(1)),
            (1, Take(1), Taken(0)),
        ],
    },
    Row {
        name: "of 33 presses the oldest is given up",
        text: HOUSE,
        workers: 1,
        limit: 200,
        calls: &[
            (33, Push, Noted),
            (32, Turn(0), Taken(0)),
            (1, Take(0), Refused(NothingReady)),
        ],
    },
    Row {
        name: "a level that came back is not owed, and one that gave up is not owed again",
        text: HOUSE,
        workers: 1,
        limit: 100,
        calls: &[
            (1, Hand(0), Handed),
            (1, Done(0, &[Mark::Quiet]), Noted),
            (2, Push, Noted),
            (2, Turn(0), Taken(0)),
            (1, Hand(0), Refused(NothingReady)),
            (1, Push, Noted),
            (1, Turn(0), Taken(0)),
            (1, Hand(0), Handed),
            (1, Done(11, &[Mark::Lost, Mark::Lost, Mark::Lost]), Noted),
            (1, Hand(0), Refused(NothingReady)),
        ],
    },
    Row {
        name: "a scan that began is committed in a full history, and a bus goes down there",
        text: ASKING,
        workers: 2,
        limit: 100,
        calls: &[
            (1, Push, Noted),
            (1, Take(1), Taken(0)),
            (95, Tick(1000), Noted),
            (2, Tick(1000), Refused(Full)),
            (1, Push, Refused(Full)),
            (1, Take(0), Refused(Full)),
            (1, Commit(1), Noted),
            (1, Hand(0), Refused(Full)),
            (1, Tick(1000), Refused(Full)),
            (1, Down(0), Noted),
            (1, Tick(999), Refused(ClockBack)),
            (1, Tick(1000), Refused(Full)),
        ],
    },
    Row {
        name: "a report comes in a full history",
        text: ASKING,
        workers: 1,
        limit: 100,
        calls: &[
            (1, Turn(0), Taken(1)),
            (1, Hand(0), Handed),
            (94, Tick(0), Noted),
            (1, Tick(0), Refused(Full)),
            (1, Done(3, &[Mark::Quiet]), Refused(Stranger)),
            (1, Done(2, &[Mark::Quiet]), Noted),
            // The question still waits, and there is no place for it.
            (1, Hand(0), Refused(Full)),
        ],
    },
    Row {
        name: "a bus that goes down closes its transaction",
        text: HOUSE,
        workers: 1,
        limit: 100,
        calls: &[
            (1, Hand(0), Handed),
            (1, Down(0), Noted),
            (1, Done(0, &[Mark::Quiet]), Refused(Stranger)),
            (96, Tick(7), Noted),
            (1, Tick(7), Refused(Full)),
        ],
    },
    Row {
        name: "16 workers scan at once, and the last to take is the first to commit",
        text: MANY,
        workers: 16,
        limit: 1_000_000,
        calls: &[
            (1, Take(15), Taken(0)),
            (1, Take(14), Taken(1)),
            (1, Take(13), Taken(2)),
            (1, Take(12), Taken(3)),
            (1, Take(11), Taken(4)),
            (1, Take(10), Taken(5)),
            (1, Take(9), Taken(6)),
            (1, Take(8), Taken(7)),
            (1, Take(7), Taken(8)),
            (1, Take(6), Taken(9)),
            (1, Take(5), Taken(10)),
            (1, Take(4), Taken(11)),
            (1, Take(3), Taken(12)),
            (1, Take(2), Taken(13)),
            (1, Take(1), Taken(14)),
            (1, Take(0), Taken(15)),
            (1, Take(0), Refused(Busy)),
            (1, Commit(0), Noted),
            (1, Commit(1), Noted),
            (1, Commit(2), Noted),
            (1, Commit(3), Noted),
            (1, Commit(4), Noted),
            (1, Commit(5), Noted),
            (1, Commit(6), Noted),
            (1, Commit(7), Noted),
            (1, Commit(8), Noted),
            (1, Commit(9), Noted),
            (1, Commit(10), Noted),
            (1, Commit(11), Noted),
            (1, Commit(12), Noted),
            (1, Commit(13), Noted),
            (1, Commit(14), Noted),
            (1, Commit(15), Noted),
            (1, Commit(0), Refused(Stranger)),
            (1, Take(0), Refused(NothingReady)),
        ],
    },
];

/// The step, of which a turn's take is the first.
fn step_of(alloc: Global, call: Call) -> Result<Step, Fail> {
    Ok(match call {
        Tick(moment) => Step::Tick { moment },
        Push => Step::Heard {
            bus: 0,
            frame: Frame24::new(0x0A_8801).ok_or("24 bits")?,
        },
        Take(worker) | Turn(worker) => Step::Take { worker },
        Commit(worker) => Step::Commit { worker },
        Hand(bus) => Step::Hand { bus },
        Done(number, marks) => Step::Done {
            bus: 0,
            number,
            marks: Vec::from_slice(alloc, marks)?,
        },
        Down(bus) => Step::Down { bus },
    })
}

/// Adds a step the given number of times.
fn add(alloc: Global, steps: &mut Vec<Step>, times: u32, call: Call) -> Result<(), Fail> {
    for _ in 0..times {
        steps.push(step_of(alloc, call)?)?;
        if let Turn(worker) = call {
            steps.push(Step::Commit { worker })?;
        }
    }
    Ok(())
}

/// Adds an answer the given number of times.
fn expect(wanted: &mut Vec<Answer>, times: u32, call: Call, answer: Answer) -> Result<(), Fail> {
    for _ in 0..times {
        wanted.push(answer)?;
        if let Turn(_) = call {
            wanted.push(Noted)?;
        }
    }
    Ok(())
}

/// The steps of a row.
fn steps_of(alloc: Global, row: Row) -> Result<Vec<Step>, Fail> {
    let mut steps = Vec::new(alloc);
    for &(times, call, _) in row.calls {
        add(alloc, &mut steps, times, call)?;
    }
    Ok(steps)
}

/// Their answers.
fn answers_of(alloc: Global, row: Row) -> Result<Vec<Answer>, Fail> {
    let mut wanted = Vec::new(alloc);
    for &(times, call, answer) in row.calls {
        expect(&mut wanted, times, call, answer)?;
    }
    Ok(wanted)
}

/// A reply, as a table has it.
fn answer_in(reply: &StepReply) -> Answer {
    match reply {
        StepReply::Noted => Noted,
        StepReply::Taken { task, .. } => Taken(*task),
        StepReply::Handed { .. } => Handed,
        StepReply::Refused(refusal) => Refused(*refusal),
        StepReply::Memory => Answer::Memory,
    }
}

/// Whether the replies are these.
fn are(replies: &[StepReply], wanted: &[Answer]) -> bool {
    if replies.len() != wanted.len() {
        return false;
    }
    for (reply, answer) in replies.iter().zip(wanted.iter()) {
        if answer_in(reply) != *answer {
            return false;
        }
    }
    true
}

/// The text of a row, driven.
fn driven(alloc: Global, row: Row, steps: &[Step]) -> Result<Driven, Fail> {
    let Ok(binding) = Binding::parse(alloc, WIRES.as_bytes()) else {
        return Err("a binding".into());
    };
    match drive_text(
        alloc,
        row.text.as_bytes(),
        &binding,
        row.workers,
        row.limit,
        steps,
    ) {
        Ok(driven) => Ok(driven),
        Err(_) => Err("it is driven".into()),
    }
}

/// Whether a row's steps are answered as it says.
fn holds(alloc: Global, row: Row) -> Result<bool, Fail> {
    let steps = steps_of(alloc, row)?;
    let wanted = answers_of(alloc, row)?;
    let driven = driven(alloc, row, &steps)?;
    Ok(are(&driven.replies, &wanted))
}

#[test]
fn steps_are_answered(rt: HostRuntime) -> Result<(), Fail> {
    for row in ROWS {
        let is_so = holds(rt.alloc(), row)?;
        assert!(rt; is_so, "{}", row.name);
    }
    Ok(())
}
