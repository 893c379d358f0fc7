//! The line, as whoever has its bus sees it.

ghost use Rattle.std.specs.Prelude.{◌≡◌, ◌<◌, ◌≤◌, ◌+◌, ◌⊎◌, IfOk, IfSome, IsErr, IsOk, IsSome};
ghost use Rattle.std.specs.Prelude.{IsTrue, None, OnOk, Some, false, true};
ghost use Rattle.buslink.specs.BusLog.{TellsAll, after_hear, after_mend, after_send, with_spare};
ghost use Rattle.liveline.specs.Exchanges.{fresh_log};
ghost use Rattle.liveline.specs.Mended.{IsCounted, IsLastCounted, most_kept};

use crate::bells::{LineBell, Resting, new_bell};
use crate::budget::Budget;
use crate::buses::LineBus;
use crate::reader::TimedReader;
use crate::reasons::Reason;
use crate::starter::{LineStarter, Order};
use crate::thread::{Job, Outcome, Tries};
use crate::told::Told;
use crate::troubles::Trouble;
use crate::writer::TimedWriter;
use buslink::{Bus, Fault, Reply};
use crossbeam_channel::{Receiver, Sender, bounded};
use daliframe::{BusNumber, Frame, Frame24};
use ghosts::Memo;
use std::alloc::{AllocError, Global};
use std::io::Write;
use std::marker::Model;
use std::sync::Wait;
use std::time::{Clock, Duration, Instant};

/// The most frames that are heard once the building's end was asked for: as many as an interface
/// keeps.
const MOST_KEPT: u32 = 256;

/// Whoever tells what becomes of a line.
pub trait Teller: Drop {
    ghost use Rattle.std.specs.Prelude.{Bool};

    // Asked whether the building's end was asked for, it may answer this.
    ghost answers: { Self → Bool → Type 0 };

    /// Why the line is down. Each try that fails says it, whether it is told or not.
    fn note_reason(&self, reason: &Reason);

    /// The line is down.
    fn tell_down(&self, reason: &Reason);

    /// It is up again.
    fn tell_up(&self);

    /// It is slow: more than half of its time was used.
    fn tell_slow(&self);

    /// Whether the building's end was asked for.
    fn is_at_end(&self) -> bool
        ensures { answers self.now result };
}

/// A bus behind a line, which a thread of its own opens and greets.
#[derive(Drop)]
pub struct MendedLine<R: Wait + Clock + Drop, W: Write + Drop, T: Teller, O> {
    rt: R,
    bus: LineBus<TimedReader<R>, TimedWriter<R, W>>,
    /// What the thread is to try.
    jobs: Sender<Job<R, W>>,
    /// What became of it.
    outcomes: Receiver<Outcome<R, W>>,
    /// Whether the thread tries, or has tried, and that was not looked at.
    is_tried: bool,
    /// Why the last try failed.
    why: Reason,
    /// The time that the interface has for the answers of one transaction, and for what has come.
    budget: Budget,
    /// Whether a call failed since the bus was taken up.
    is_down: bool,
    told: Told,
    /// When the interface was last asked for what has come, and answered.
    asked: Option<Instant>,
    /// What rings where something comes, or may be to be sent.
    bell: LineBell,
    resting: Resting,
    /// How many frames were heard since the building's end was asked for.
    heard_last: u32,
    teller: T,
    /// Who opens the line, in its thread.
    opener: Memo<O>,
}

impl<R: Wait + Clock + Drop, W: Write + Drop, T: Teller, O> Model for MendedLine<R, W, T, O> {
    ghost use Rattle.std.specs.Prelude.{◌≤◌, option_map};
    ghost use Rattle.std.specs.Time.{instant_nanos};
    ghost use Rattle.liveline.specs.Mended.{MendedState, most_kept};

    ghost Value = { MendedState O T };

    ghost view = { λ m. record {
      log = m.bus.log;
      is_in_step = m.bus.is_in_step;
      heard_last = m.heard_last;
      began = option_map instant_nanos m.budget.began;
      set = record {
        opener = m.opener.value;
        teller = m.teller;
        patience = m.budget.patience;
      };
    } };

    ghost invariant = { λ m. m.heard_last ≤ most_kept };
}

impl<R: Wait + Clock + Drop, W: Write + Drop, T: Teller, O: Drop> MendedLine<R, W, T, O> {
    /// A bus whose line is not open yet: a thread of its own, which the starter starts, begins to
    /// open it. Each call fails, and says nothing, until the line has greeted. The interface has so
    /// many milliseconds for all answers of one transaction together, and as many for what has come.
    ///
    /// # Errors
    ///
    /// The allocator is out of memory, or the starter's thread has ended.
    pub fn start(
        alloc: Global,
        rt: R,
        opener: O,
        teller: T,
        number: BusNumber,
        patience: u64,
        starter: &LineStarter<R, W, O>,
    ) -> Result<MendedLine<R, W, T, O>, AllocError>
    where
        R: Clone,
        ensures log { IfOk result (λ line. line.log ≡ fresh_log number) }
        ensures step { IfOk result (λ line. line.is_in_step ≡ false) }
        ensures began { IfOk result (λ line. line.began ≡ None) }
        ensures set { IfOk result (λ line. line.set ≡ record {
          opener = opener;
          teller = teller;
          patience = patience;
        }) }
    {
        let (jobs, theirs) = bounded::<Job<R, W>, Global>(alloc, 1)?;
        let (to, outcomes) = bounded::<Outcome<R, W>, Global>(alloc, 1)?;
        let (bell, resting) = new_bell(alloc)?;
        let noted = Memo::of(&opener);
        let tries = Tries {
            rt: rt.clone()?,
            alloc,
            opener,
            patience,
            ends: None,
            began: None,
            number: 0,
            bell: bell.another()?,
        };
        let order = Order::new(&rt, tries, theirs, to)?;
        starter.order(&rt, order)?;
        let mut line = MendedLine {
            rt,
            bus: LineBus::absent(number),
            jobs,
            outcomes,
            is_tried: false,
            why: Reason::NotYet,
            budget: Budget::new(patience),
            is_down: false,
            told: Told::nothing(),
            asked: None,
            bell,
            resting,
            heard_last: 0,
            teller,
            opener: noted,
        };
        line.ask(None);
        Ok(line)
    }

    /// What wakes the worker of the bus, for whoever has something to send.
    ///
    /// # Errors
    ///
    /// The allocator is out of memory.
    pub fn bell(&self) -> Result<LineBell, AllocError> {
        self.bell.another()
    }

    /// Whether the first try is over.
    pub fn is_settled(&self) -> bool {
        !self.is_tried || !self.outcomes.is_empty()
    }

    /// Whether each request on the line so far was answered as it should be, and there is a line.
    pub fn is_in_step(&self) -> bool
        ensures value { result ≡ self.now.is_in_step }
    {
        self.bus.is_in_step()
    }

    /// Takes the line that the first try handed over, if it did.
    pub fn begin(&mut self)
        ensures log { self.new.log ≡ self.old.log }
        ensures heard { self.new.heard_last ≡ self.old.heard_last }
        ensures began { self.new.began ≡ self.old.began }
        ensures set { self.new.set ≡ self.old.set }
    {
        if self.is_down || self.bus.is_in_step() {
            return;
        }
        match self.outcomes.try_recv(&self.rt) {
            Ok(Ok(greeted)) => {
                self.is_tried = false;
                self.bus.begin(greeted);
            }
            Ok(Err(why)) => {
                self.is_tried = false;
                self.why = why;
            }
            Err(_) => {}
        }
    }

    /// Asks the thread to try, over these ends where there are any.
    fn ask(&mut self, ends: Job<R, W>)
        ensures { self.new ≡ self.old }
    {
        self.is_tried = self.jobs.try_send(&self.rt, ends).is_ok();
    }

    /// Looks what became of the last try, and has the next one begin where that failed. A line that
    /// is out of step is let go of: the thread greets it again while it is read.
    fn look(&mut self)
        ensures log { after_mend false self.new.log ≡ after_mend false self.old.log }
        ensures heard { self.new.heard_last ≡ self.old.heard_last }
        ensures began { self.new.began ≡ self.old.began }
        ensures set { self.new.set ≡ self.old.set }
    {
        if !self.is_tried {
            let ends = self.bus.let_go();
            self.ask(ends);
            return;
        }
        match self.outcomes.try_recv(&self.rt) {
            Ok(Ok(greeted)) => {
                self.is_tried = false;
                self.bus.renew(greeted);
            }
            Ok(Err(why)) => {
                self.why = why;
                self.tell_why();
                self.ask(None);
            }
            Err(_) => {}
        }
    }

    /// Lets go of a line on which as many frames were heard since the building's end was asked for
    /// as an interface keeps: the next call fails. Else a building would not end on a line that
    /// always has an event.
    fn end_where_heard(&mut self)
        ensures log { self.new.log ≡ self.old.log }
        ensures heard { self.new.heard_last ≡ self.old.heard_last }
        ensures began { self.new.began ≡ self.old.began }
        ensures set { self.new.set ≡ self.old.set }
        ensures ends { self.old.heard_last ≡ most_kept → self.new.is_in_step ≡ false }
        ensures left { (self.old.heard_last < most_kept) ⊎ (self.new.is_in_step ≡ false) }
    {
        if self.heard_last >= MOST_KEPT {
            self.why = Reason::SpeaksOn;
            let _ends = self.bus.let_go();
        }
    }

    /// Counts a frame that was heard, where the building's end was asked for.
    fn count_last(&mut self)
        requires few { self.old.heard_last < most_kept }
        ensures same { (self.new.log ≡ self.old.log) × (self.new.is_in_step ≡ self.old.is_in_step) }
        ensures began { self.new.began ≡ self.old.began }
        ensures set { self.new.set ≡ self.old.set }
        ensures counted { IsLastCounted (T.answers self.old.set.teller)
            self.old.heard_last self.new.heard_last }
    {
        if self.teller.is_at_end() {
            self.heard_last += 1;
        }
    }

    /// Why the last try to open and greet the line failed, where one did.
    pub fn why(&self) -> &Reason {
        &self.why
    }

    /// Gives the interface what is left of its time for the next answer. Where nothing is left, it
    /// falls silent.
    fn spend(&mut self)
        ensures log { self.new.log ≡ self.old.log }
        ensures heard { self.new.heard_last ≡ self.old.heard_last }
        ensures set { self.new.set ≡ self.old.set }
        ensures silent { self.old.is_in_step ≡ false → self.new.is_in_step ≡ false }
        ensures begun { self.new.is_in_step ≡ true → IsSome self.new.began }
        ensures kept { IfSome self.old.began (λ began. self.new.began ≡ Some began) }
    {
        let left = match Instant::now(&self.rt) {
            Ok(now) => self.budget.left_at(now),
            Err(_) => 0,
        };
        if left == 0 {
            self.bus.fall_silent();
            return;
        }
        if let Some(from) = self.bus.reader() {
            from.set_time(left);
        }
        if let Some(to) = self.bus.writer() {
            to.set_patience(left);
        }
    }

    /// Whether the interface says unasked what comes, has said nothing, and answered not long ago
    /// that there is nothing more: it need not be asked. At the building's end it is asked.
    fn is_quiet(&self) -> bool
        ensures { IsTrue result → self.now.is_in_step ≡ true }
    {
        self.bus.is_in_step()
            && self.bus.announces()
            && !self.bus.has_kept()
            && !self.has_come()
            && self.was_asked()
            && !self.teller.is_at_end()
    }

    /// Whether something came on the line that was not read.
    fn has_come(&self) -> bool {
        match self.bus.reader() {
            Some(from) => from.has_come(),
            None => true,
        }
    }

    /// Whether the interface was asked for what has come within its patience.
    fn was_asked(&self) -> bool {
        match self.asked {
            Some(asked) => match asked.elapsed(&self.rt) {
                Ok(since) => since < Duration::from_millis(self.budget.patience),
                Err(_) => false,
            },
            None => false,
        }
    }

    /// Tells that the line is slow, where that is new.
    fn note_slow(&mut self)
        ensures { self.new ≡ self.old }
    {
        if let Ok(now) = Instant::now(&self.rt) {
            if self.budget.turns_slow(now) {
                self.teller.tell_slow();
            }
        }
    }

    /// Reads what the interface has begun to say unasked, or asks it for what has come.
    fn hear_or_ask(&mut self) -> Result<Option<Frame24>, Fault>
        requires { 0 < self.old.log.spare }
        ensures logged { self.new.log ≡ after_hear result self.old.log }
        ensures all { TellsAll result self.old.log }
        ensures step { IsOk result → self.old.is_in_step ≡ true }
        ensures heard { self.new.heard_last ≡ self.old.heard_last }
        ensures began { self.new.began ≡ self.old.began }
        ensures set { self.new.set ≡ self.old.set }
    {
        if self.bus.announces() && self.has_come() {
            return self.bus.hear_said();
        }
        let message = self.bus.hear();
        self.asked = Instant::now(&self.rt).ok();
        message
    }

    /// Notes that a call failed, and tells that the line is down.
    fn note_down(&mut self)
        ensures { self.new ≡ self.old }
    {
        if self.is_down {
            return;
        }
        self.is_down = true;
        match self.bus.trouble() {
            Trouble::Absent => {}
            trouble => self.why = Reason::of(trouble, self.budget.patience),
        }
        self.tell_why();
    }

    /// Tells why the line is down, where a call failed and that is to be told.
    fn tell_why(&mut self)
        ensures { self.new ≡ self.old }
    {
        if !self.is_down {
            return;
        }
        self.teller.note_reason(&self.why);
        if let Ok(now) = Instant::now(&self.rt) {
            if self.told.takes_down(self.why.kind(), now) {
                self.teller.tell_down(&self.why);
            }
        }
    }
}

impl<R: Wait + Clock + Drop, W: Write + Drop, T: Teller, O: Drop> Bus for MendedLine<R, W, T, O> {
    ghost log = { λ m. m.log };

    /// A transaction begins with this call, and its time with its first frame.
    fn room(&mut self, frames: usize) -> Result<(), AllocError>
        ensures made { OnOk result (frames ≤ self.new.log.spare) }
        ensures already { frames ≤ self.old.log.spare → IsOk result }
        ensures keeps { self.old.log.spare ≤ self.new.log.spare }
        ensures same { self.new.log ≡ with_spare self.new.log.spare self.old.log }
        ensures anew { self.new.began ≡ None }
    {
        self.budget.begin_anew();
        self.bus.room(frames)
    }

    fn send(&mut self, frame: Frame, priority: u8) -> Result<Reply, Fault>
        requires { 0 < self.old.log.spare }
        ensures logged { self.new.log ≡ after_send frame priority result self.old.log }
        ensures begun { IsOk result → IsSome self.new.began }
        ensures kept { IfSome self.old.began (λ began. self.new.began ≡ Some began) }
        ensures set { self.new.set ≡ self.old.set }
    {
        self.begin();
        self.spend();
        let reply = self.bus.send(frame, priority);
        match reply {
            Ok(_) => self.note_slow(),
            Err(Fault) => self.note_down(),
        }
        reply
    }

    fn hear(&mut self) -> Result<Option<Frame24>, Fault>
        requires { 0 < self.old.log.spare }
        ensures logged { self.new.log ≡ after_hear result self.old.log }
        ensures all { TellsAll result self.old.log }
        ensures few { self.old.heard_last ≡ most_kept → IsErr result }
        ensures counted { IsCounted (T.answers self.old.set.teller) result
            self.old.heard_last self.new.heard_last }
        ensures begun { IsOk result → IsSome self.new.began }
        ensures set { self.new.set ≡ self.old.set }
    {
        self.begin();
        self.end_where_heard();
        self.budget.begin_anew();
        self.spend();
        if self.is_quiet() {
            self.bus.hear_nothing();
            return Ok(None);
        }
        match self.hear_or_ask() {
            Ok(Some(frame)) => {
                self.note_slow();
                self.count_last();
                Ok(Some(frame))
            }
            Ok(None) => {
                self.note_slow();
                Ok(None)
            }
            Err(Fault) => {
                self.note_down();
                Err(Fault)
            }
        }
    }

    #[tactic(auto, using(crate::proofs::Mending::alike))]
    fn mend(&mut self) -> bool
        ensures same { self.new.log ≡ after_mend result self.old.log }
        ensures step { result ≡ true → self.new.is_in_step ≡ true }
    {
        if !self.bus.is_in_step() {
            self.look();
        }
        self.bus.mend()
    }

    fn resume(&mut self) {
        self.bus.resume();
        self.is_down = false;
        if self.told.takes_up() {
            self.budget.forgive();
            self.teller.tell_up();
        }
    }

    /// Where the interface says unasked what comes, the bus waits for that, or for the bell.
    fn rest(&mut self) -> bool
        ensures { self.new ≡ self.old }
    {
        if !self.bus.is_in_step() || !self.bus.announces() {
            return false;
        }
        self.resting.rest(&self.rt);
        true
    }
}
