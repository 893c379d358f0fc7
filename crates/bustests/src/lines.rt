//! Buses behind a line over bytes in memory: what an interface says goes in, and what was said to
//! it comes out.

use buslink::{Bus, Fault, Reply};
use daliframe::{BusNumber, Frame, Frame16, Frame24};
use liveline::{Greeted, LineBus};
use std::alloc::Global;
use std::io;
use std::io::{ErrorKind, Read};
use std::test::Fail;

/// What an interface says after its greeting; what becomes of a level, a query and a call that
/// hears, a letter each; and how many bytes of `ASKED` were said to it.
type Row = (&'static [u8], &'static [u8], usize);

/// The greeting, and how it is answered, in a version.
type Greeting = (&'static [u8], &'static [u8]);

/// Version 3, which the interface knows, and version 2 where it does not know version 3.
const NEWEST: Greeting = (b"gushewa 3 5\n", b"none\ngushewa 3 5\ngushewa 3 hears 5\n");

const BEFORE: Greeting = (
    b"gushewa 3 5\ngushewa 2 5\n",
    b"none\nfault\ngushewa 2 5\ngushewa 2 hears 5\n",
);

/// The three requests.
const ASKED: &[u8] = b"send 2 0A80\nsend 5 0BA0\nhear\n";

/// Where the first, the second and the third request end.
const ONE: usize = 12;

const TWO: usize = 24;

const ALL: usize = 29;

/// An interface that announces: events come before answers, and `hear` is answered by `none`.
const ANNOUNCING: [Row; 10] = [
    (b"quiet\nanswer 128\nnone\n", b"qan", ALL),
    (b"event 0A8809\nquiet\nanswer 0\n", b"qae", TWO),
    (
        b"quiet\nevent 0A8809\nevent 0A880A\nanswer 7\n",
        b"qae",
        TWO,
    ),
    (b"quiet\nlost\nevent 0A8809\nnone\n", b"qle", ALL),
    (
        b"quiet\nquiet\nevent 0A8809\nevent 0A880A\nnone\n",
        b"qqe",
        ALL,
    ),
    (b"quiet\nquiet\nevent 0A8809\n", b"qqf", ALL),
    (b"quiet\nquiet\nquiet\n", b"qqf", ALL),
    (b"event 0A880\nquiet\nnone\n", b"fff", ONE),
    (b"event 0A8809\nfault\nnone\n", b"fff", ONE),
    (b"none\nquiet\nnone\n", b"fff", ONE),
];

const ROWS: [Row; 20] = [
    (b"event 0A8809\nquiet\nnone\n", b"fff", ONE),
    (b"quiet\nanswer 128\nnone\n", b"qan", ALL),
    (b"lost\ndamaged\nevent 0A8809\n", b"lde", ALL),
    (b"quiet\nanswer 0\nevent 0a8809\n", b"qae", ALL),
    (b"quiet\nanswer 007\nnone\nnone\n", b"qan", ALL),
    (b"quiet\nanswer 256\nnone\n", b"qff", TWO),
    (b"quiet\nanswer -1\nnone\n", b"qff", TWO),
    (b"quiet\nanswer\nnone\n", b"qff", TWO),
    (b"quiet\nanswer  1\nnone\n", b"qff", TWO),
    (b"quiet \nquiet\nnone\n", b"fff", ONE),
    (b" quiet\nquiet\nnone\n", b"fff", ONE),
    (b"quiet\r\nquiet\nnone\n", b"fff", ONE),
    (b"Quiet\nquiet\nnone\n", b"fff", ONE),
    (b"fault\nquiet\nnone\n", b"fff", ONE),
    (b"none\nquiet\nnone\n", b"fff", ONE),
    (b"quiet\nquiet\nevent 0A880\n", b"qqf", ALL),
    (b"quiet\nquiet\nevent 0A8809 1\n", b"qqf", ALL),
    (b"quiet\nquiet\nnon", b"qqf", ALL),
    (b"", b"fff", ONE),
    (
        b"quiet quiet quiet quiet quiet quiet quiet quiet quiet quiet quiet\nquiet\nnone\n",
        b"fff",
        ONE,
    ),
];

/// What an interface may say in place of the answer to the greeting of number 5: among it an answer
/// to an earlier greeting, an echo, and the greeting of version 1 that nobody asked for.
const NO_ANSWERS: [&[u8]; 10] = [
    b"gushewa 3 hears 4\n",
    b"gushewa 2 hears 5\n",
    b"gushewa 2 hears 4\n",
    b"gushewa 2 5\n",
    b"gushewa 2 hears 5",
    b"gushewa 1\ngushewa 1\n",
    b"fault\n",
    b"",
    b"quiet\n",
    b"GUSHEWA 2 hears 5\n",
];

/// What an interface of version 1 says up to where it is silent and from there on, and whether it
/// has greeted then.
const PLAIN: [(&[u8], &[u8], bool); 8] = [
    (b"fault\nfault\n", b"gushewa 1\n", true),
    (
        b"none\nquiet\nfault\nnone\nfault\nnone\ngushewa 1\n",
        b"gushewa 1\n",
        true,
    ),
    (b"fault\nfault\ngushewa 1\n", b"none\ngushewa 1\n", false),
    (b"fault\nfault\ngushewa 1\n", b"gushewa 2 hears 5\n", false),
    (b"fault\n", b"gushewa 1\n", false),
    (b"gushewa 1\n", b"gushewa 1\n", false),
    (b"fault 1\nfault\n", b"gushewa 1\n", false),
    (b"fault\nfault\n", b"", false),
];

/// A reader of two parts, between which it is silent once.
#[derive(Drop)]
struct Pausing {
    first: &'static [u8],
    was_silent: bool,
    second: &'static [u8],
}

impl Read for Pausing {
    fn read(&mut self, buf: &mut [u8]) -> io::Result<usize> {
        if !self.first.is_empty() {
            return self.first.read(buf);
        }
        if !self.was_silent {
            self.was_silent = true;
            return Err(io::Error::from(ErrorKind::TimedOut));
        }
        self.second.read(buf)
    }
}

/// The letter of what became of a frame.
fn sent(reply: Result<Reply, Fault>) -> u8 {
    match reply {
        Ok(Reply::Quiet) => b'q',
        Ok(Reply::Answer(_)) => b'a',
        Ok(Reply::Damaged) => b'd',
        Ok(Reply::Lost) => b'l',
        Err(Fault) => b'f',
    }
}

/// The letter of what was heard.
fn heard(message: Result<Option<Frame24>, Fault>) -> u8 {
    match message {
        Ok(None) => b'n',
        Ok(Some(_)) => b'e',
        Err(Fault) => b'f',
    }
}

/// What became of the three requests, a letter each, where the interface answers the greeting and
/// then says this; and what was said to it.
fn asked_over(alloc: Global, answer: &[u8], says: &[u8]) -> Result<([u8; 3], Vec<u8>), Fail> {
    let mut lines = Vec::new(alloc);
    lines.extend_from_slice(answer)?;
    lines.extend_from_slice(says)?;
    let to = Vec::<u8>::new(alloc);
    let Ok(greeted) = Greeted::greet(lines.as_slice(), to, 5) else {
        return Err(Fail::from("a greeting"));
    };
    let mut bus = LineBus::over(greeted, BusNumber::default());
    bus.room(3)?;
    let level = sent(bus.send(Frame::Forward16(Frame16::new(0x0A80)), 2));
    let query = sent(bus.send(Frame::Forward16(Frame16::new(0x0BA0)), 5));
    let came = heard(bus.hear());
    match bus.let_go() {
        Some((_, to)) => Ok(([level, query, came], to)),
        None => Err(Fail::from("the ends")),
    }
}

#[test]
fn each_answer_is_read_as_its_row_says(rt: HostRuntime) -> Result<(), Fail> {
    let tables: [(Greeting, &[Row]); 2] = [(NEWEST, &ANNOUNCING), (BEFORE, &ROWS)];
    for ((greeting, answer), rows) in tables {
        for (says, letters, asked) in rows {
            let (became, said) = asked_over(rt.alloc(), answer, says)?;
            assert!(rt; became.as_slice() == *letters, "{says:?}");
            let requests = said.as_slice().strip_prefix(greeting);
            assert!(rt; requests == ASKED.get(..*asked), "{says:?}");
        }
    }
    Ok(())
}

#[test]
fn what_is_no_answer_is_refused(rt: HostRuntime) -> Result<(), Fail> {
    for says in NO_ANSWERS {
        let to = Vec::<u8>::new(rt.alloc());
        assert!(rt; Greeted::greet(says, to, 5).is_err(), "{says:?}");
    }
    Ok(())
}

#[test]
fn version_1_is_greeted_after_silence(rt: HostRuntime) -> Result<(), Fail> {
    for (first, second, has_greeted) in PLAIN {
        let from = Pausing {
            first,
            was_silent: false,
            second,
        };
        let to = Vec::<u8>::new(rt.alloc());
        let greeted = Greeted::greet(from, to, 5);
        assert!(rt; greeted.is_ok() == has_greeted, "{first:?} {second:?}");
    }
    Ok(())
}

#[test]
fn a_bus_fails_until_its_line_is_renewed(rt: HostRuntime) -> Result<(), Fail> {
    let mut bus = LineBus::absent(BusNumber::default());
    bus.room(3)?;
    assert!(rt; bus.hear().is_err() && !bus.mend());
    let lines: &[u8] = b"gushewa 3 hears 5\nnone\nnone\n";
    let Ok(greeted) = Greeted::greet(lines, Vec::<u8>::new(rt.alloc()), 5) else {
        return Err(Fail::from("a greeting"));
    };
    bus.renew(greeted);
    assert!(rt; bus.mend());
    bus.resume();
    assert!(rt; bus.hear().is_ok() && !bus.mend());
    assert!(rt; bus.let_go().is_some() && bus.hear().is_err());
    Ok(())
}
