//! Transactions on a bus of another kind than the simulated one, in a box, and the moments of a
//! clock in a box. What is sent is printed nowhere with its priority, so it is compared here.
ghost use Rattle.std.specs.Prelude.{◌≡◌, ◌+◌, ◌≤◌, [], None};
ghost use Rattle.arrayvec.specs.ArrayVec.{array_vec_len};

use arrayvec::ArrayVec;
use buslink::{
    Bus, Clock, Fault, MOST_SENT, Mark, Outcome, Reply, Report, Sent, Transaction, perform,
};
use daliframe::{Address, BusNumber, Frame, Frame24};
use gearcmd::{Command, GearSetCommand, Request, TaskKind};
use simbus::{ScriptedClock, parse};
use std::alloc::AllocError;
use std::test::Fail;

/// What becomes of the frames of a bus.
#[derive(Clone, Copy)]
enum Script {
    Quiet,
    ThirdLost,
    FourLost,
    AllLost,
    FaultAtSecond,
}

/// The places of a bus for frames, which five attempts of three frames fill.
const PLACES: usize = 15;

/// A bus with these places that answers by a script.
#[derive(Drop)]
struct ScriptedBus {
    script: Script,
    sent: ArrayVec<Sent, PLACES>,
    spare: usize,
    failures: u64,
    hears: u64,
    heard_none: bool,
    mends: u64,
    is_mended: bool,
    ghost fits: { array_vec_len sent + spare ≤ 15 },
}

impl ScriptedBus {
    fn new(script: Script) -> Self {
        ScriptedBus {
            script,
            sent: ArrayVec::new(),
            spare: 0,
            failures: 0,
            hears: 0,
            heard_none: false,
            mends: 0,
            is_mended: false,
        }
    }

    fn reply(&self) -> Result<Reply, Fault> {
        match (self.script, self.sent.len()) {
            (Script::ThirdLost, 2) | (Script::FourLost, 0..=3) | (Script::AllLost, _) => {
                Ok(Reply::Lost)
            }
            (Script::FaultAtSecond, 1) => Err(Fault),
            (Script::Quiet | Script::ThirdLost | Script::FourLost | Script::FaultAtSecond, _) => {
                Ok(Reply::Quiet)
            }
        }
    }
}

impl Bus for ScriptedBus {
    ghost log = { λ b. record {
      number = 0;
      arrivals = None;
      sent = b.sent.items;
      heard = [];
      spare = b.spare;
      failures = b.failures;
      hears = b.hears;
      heard_none = b.heard_none;
      mends = b.mends;
      is_mended = b.is_mended;
    } };

    fn room(&mut self, frames: usize) -> Result<(), AllocError> {
        if frames <= self.spare {
            return Ok(());
        }
        if frames > PLACES - self.sent.len() {
            return Err(AllocError);
        }
        self.spare = frames;
        Ok(())
    }

    fn send(&mut self, frame: Frame, priority: u8) -> Result<Reply, Fault> {
        let reply = self.reply();
        self.spare -= 1;
        match reply {
            Ok(answer) => {
                let mark = Mark::from(answer);
                self.sent.push(Sent {
                    frame,
                    priority,
                    mark,
                });
            }
            Err(Fault) => {
                let mark = Mark::Failed;
                self.sent.push(Sent {
                    frame,
                    priority,
                    mark,
                });
                self.failures = self.failures.wrapping_add(1);
            }
        }
        reply
    }

    fn hear(&mut self) -> Result<Option<Frame24>, Fault> {
        self.hears = self.hears.saturating_add(1);
        self.heard_none = true;
        Ok(None)
    }

    fn mend(&mut self) -> bool {
        self.is_mended = false;
        false
    }

    fn resume(&mut self) {
        self.mends = self.mends.wrapping_add(1);
        self.is_mended = false;
    }
}

/// A frame that is sent: its number, its priority, and what became of it.
type Row = (u16, u8, Mark);

const QUIETLY: [Row; 3] = [
    (0xA364, 3, Mark::Quiet),
    (0x0B42, 1, Mark::Quiet),
    (0x0B42, 1, Mark::Quiet),
];

const AGAIN: [Row; 6] = [
    (0xA364, 3, Mark::Quiet),
    (0x0B42, 1, Mark::Quiet),
    (0x0B42, 1, Mark::Lost),
    (0xA364, 3, Mark::Quiet),
    (0x0B42, 1, Mark::Quiet),
    (0x0B42, 1, Mark::Quiet),
];

const ONCE: [Row; 3] = [
    (0xA364, 3, Mark::Quiet),
    (0x0B42, 1, Mark::Quiet),
    (0x0B42, 1, Mark::Lost),
];

const AT_THE_FIFTH: [Row; 7] = [
    (0xA364, 3, Mark::Lost),
    (0xA364, 3, Mark::Lost),
    (0xA364, 3, Mark::Lost),
    (0xA364, 3, Mark::Lost),
    (0xA364, 3, Mark::Quiet),
    (0x0B42, 1, Mark::Quiet),
    (0x0B42, 1, Mark::Quiet),
];

const LOST: [Row; 3] = [
    (0xA364, 3, Mark::Lost),
    (0xA364, 3, Mark::Lost),
    (0xA364, 3, Mark::Lost),
];

const FAILED: [Row; 2] = [(0xA364, 3, Mark::Quiet), (0x0B42, 1, Mark::Failed)];

/// SET SCENE 2 of short address 5 to level 100, which is sent twice after DTR0.
fn scene() -> Option<Transaction> {
    let request = Request {
        bus: BusNumber::new(15)?,
        command: Command::GearSet {
            address: Address::from_number(5)?,
            command: GearSetCommand::new(9)?,
            value: 100,
        },
    };
    Some(Transaction::of(&request, TaskKind::Cyclic))
}

/// Whether a frame was sent as its row says.
fn is_row(sent: &Sent, row: Row) -> bool {
    let number = match sent.frame {
        Frame::Forward16(frame) => frame.number(),
        Frame::Forward24(_) => 0,
    };
    (number, sent.priority, sent.mark) == row
}

/// Whether the attempts of a report are these rows, and end so.
fn is_report(report: &Report, rows: &[Row], outcome: Outcome) -> bool {
    let mut same = report.attempts().len() == rows.len() && report.outcome() == outcome;
    for (place, sent) in report.attempts().iter().enumerate() {
        same = same
            && match rows.get(place) {
                Some(row) => is_row(sent, *row),
                None => false,
            };
    }
    same
}

#[test]
fn performed_in_a_box_as_scripted(rt: HostRuntime) -> Result<(), Fail> {
    let transaction = scene().ok_or("a request")?;
    let done = Outcome::Done(Reply::Quiet);
    let cases: [(Script, u8, &[Row], Outcome); 6] = [
        (Script::Quiet, 3, &QUIETLY, done),
        (Script::ThirdLost, 3, &AGAIN, done),
        (Script::ThirdLost, 1, &ONCE, Outcome::GaveUp),
        (Script::FourLost, 5, &AT_THE_FIFTH, done),
        (Script::AllLost, 3, &LOST, Outcome::GaveUp),
        (Script::FaultAtSecond, 3, &FAILED, Outcome::Failed),
    ];
    for (script, tries, rows, outcome) in cases {
        let mut bus: Box<dyn Bus + Send> = Box::new(rt.alloc(), ScriptedBus::new(script))?;
        bus.room(MOST_SENT)?;
        let report = perform(&mut bus, &transaction, tries);
        assert!(rt; is_report(&report, rows, outcome));
        bus.room(1)?;
        let heard = bus.hear();
        assert!(rt; heard == Ok(None));
    }
    Ok(())
}

const MOMENTS: [Option<u64>; 6] = [Some(0), Some(10), Some(10), Some(u64::MAX), None, None];

#[test]
fn moments_of_a_clock_in_a_box(rt: HostRuntime) -> Result<(), Fail> {
    let text = b"tick 0\ntick 10\nevent 0 020000\ntick 10\ntick 18446744073709551615\n";
    let Ok(scenario) = parse(rt.alloc(), text) else {
        return Err(Fail::from("a scenario"));
    };
    let clock = ScriptedClock::of(rt.alloc(), &scenario)?;
    let mut clock: Box<dyn Clock + Send> = Box::new(rt.alloc(), clock)?;
    for moment in MOMENTS {
        let now = clock.now();
        assert_eq!(rt; now, moment);
    }
    Ok(())
}
