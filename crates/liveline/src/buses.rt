//! Buses behind a line.

ghost use Rattle.std.specs.Prelude.{◌≡◌, ◌<◌, ◌≤◌, ◌++◌, ◌&&◌, [], IfOk, IsOk, IsErr, OnErr, OnOk, Ok, None};
ghost use Rattle.std.specs.Prelude.{true};
ghost use Rattle.std.specs.Prelude.{false, is_ok, IfSome};
ghost use Rattle.buslink.specs.BusLog.{HasHeardAll, TellsAll, after_hear, after_mend, after_resume, after_send};
ghost use Rattle.buslink.specs.BusLog.{with_sent, with_spare};
ghost use Rattle.liveline.specs.Lines.{IsReply, hear_line, line_end, send_line};
ghost use Rattle.liveline.specs.Exchanges.{IsAnswered, IsAtMost, IsExchange, IsHeard, IsSaid};
ghost use Rattle.liveline.specs.Exchanges.{IsSilent, IsUnasked, absent_line, with_line, without_line};

use crate::answers::reply_in;
use crate::ends::{ask_to_hear, ask_to_send};
use crate::events::{KeptFrames, first_said, read_event, read_past, take_first};
use crate::greetings::Greeted;
use crate::troubles::Trouble;
use buslink::{Bus, Fault, Mark, Reply, Sent};
use daliframe::{BusNumber, Frame, Frame24};
use ghosts::Trace;
use std::alloc::AllocError;
use std::io::{Read, Write};
use std::marker::Model;

/// A bus behind a line. Once a request was not answered as it should be, the bus says nothing more
/// and fails, since a later line might answer that request, until it has a line that greeted. What
/// was sent and heard has no bytes.
#[derive(Drop)]
pub struct LineBus<R: Read, W: Write> {
    line: Option<Greeted<R, W>>,
    is_in_step: bool,
    /// The frames that came before an answer, and were not heard yet, first to last.
    kept: KeptFrames,
    /// Why the last request on the line came to nothing.
    trouble: Trouble,
    number: BusNumber,
    sent: Trace<Sent>,
    heard: Trace<Frame24>,
    spare: usize,
    failures: u64,
    hears: u64,
    heard_none: bool,
    mends: u64,
    is_mended: bool,
}

impl<R: Read, W: Write> Model for LineBus<R, W> {
    ghost use Rattle.std.specs.Prelude.{None, reverse};
    ghost use Rattle.liveline.specs.Exchanges.{LineState, announces_on, unread_on, written_on};

    ghost Value = { LineState };

    ghost view = { λ b. record {
      log = record {
        number = b.number;
        arrivals = None;
        sent = reverse b.sent.items;
        heard = reverse b.heard.items;
        spare = b.spare;
        failures = b.failures;
        hears = b.hears;
        heard_none = b.heard_none;
        mends = b.mends;
        is_mended = b.is_mended;
      };
      unread = unread_on b.line;
      written = written_on b.line;
      is_in_step = b.is_in_step;
      announces = announces_on b.line;
      kept = b.kept.items;
    } };
}

impl<R: Read + Drop, W: Write + Drop> LineBus<R, W> {
    /// A bus whose line is not there yet. Each call fails, and says and reads nothing.
    pub fn absent(number: BusNumber) -> LineBus<R, W>
        ensures { result ≡ absent_line number }
    {
        LineBus {
            line: None,
            is_in_step: false,
            kept: KeptFrames::new(),
            trouble: Trouble::Absent,
            number,
            sent: Trace::new(),
            heard: Trace::new(),
            spare: 0,
            failures: 0,
            hears: 0,
            heard_none: false,
            mends: 0,
            is_mended: false,
        }
    }

    /// A bus behind a line whose interface greeted. It has sent and heard nothing.
    pub fn over(greeted: Greeted<R, W>, number: BusNumber) -> LineBus<R, W>
        ensures { result ≡ with_line greeted (absent_line number) }
    {
        let mut bus = LineBus::absent(number);
        bus.begin(greeted);
        bus
    }

    /// Gives the bus its line, whose interface greeted. What was sent and heard stays what it was.
    pub fn begin(&mut self, greeted: Greeted<R, W>)
        ensures { self.new ≡ with_line greeted self.old }
    {
        self.line = Some(greeted);
        self.is_in_step = true;
        self.trouble = Trouble::Absent;
    }

    /// Gives the bus another line, whose interface greeted, so that it may be taken up again. What
    /// was sent and heard stays what it was.
    pub fn renew(&mut self, greeted: Greeted<R, W>)
        ensures { self.new ≡ with_line greeted (record self.old {
          log = after_mend true self.old.log;
        }) }
    {
        self.begin(greeted);
        self.is_mended = true;
    }

    /// Gives the two ends of the line away, where there is a line. What was sent and heard stays
    /// what it was.
    pub fn let_go(&mut self) -> Option<(R, W)>
        ensures ends { IfSome result (λ pair. (R.remaining pair.0 ≡ self.old.unread)
            × (W.contents pair.1 ≡ self.old.written)) }
        ensures left { self.new ≡ without_line self.old }
    {
        self.is_in_step = false;
        let greeted = self.line.take()?;
        Some(greeted.into_ends())
    }

    /// Whether each request on the line so far was answered as it should be.
    pub fn is_in_step(&self) -> bool
        ensures value { result ≡ self.now.is_in_step }
    {
        self.is_in_step
    }

    /// Whether the interface says unasked what comes.
    pub fn announces(&self) -> bool
        ensures value { result ≡ self.now.announces }
    {
        match &self.line {
            Some(line) => line.announces,
            None => false,
        }
    }

    /// Whether a frame that came is to be heard still.
    pub fn has_kept(&self) -> bool
        ensures { result ≡ false → self.now.kept ≡ [] }
    {
        !self.kept.is_empty()
    }

    /// The next frame that the interface said unasked: the one that was kept first; where none is,
    /// the one that the next line says. Nothing is said.
    ///
    /// # Errors
    ///
    /// The interface failed, or its next line is no event. No frame was heard.
    pub fn hear_said(&mut self) -> Result<Option<Frame24>, Fault>
        requires { 0 < self.old.log.spare }
        ensures logged { self.new.log ≡ after_hear result self.old.log }
        ensures all { TellsAll result self.old.log }
        ensures said { IfOk result (λ message. IsSaid message self.old self.new) }
        ensures written { self.new.written ≡ self.old.written }
        ensures step { self.new.is_in_step ≡ is_ok result }
        ensures silent { self.old.is_in_step ≡ false → IsSilent result self.old self.new }
    {
        let said = self.read_said();
        self.note_heard(said)
    }

    /// The frame that was kept first; where none is, the one that the next line says.
    fn read_said(&mut self) -> Result<Option<Frame24>, Trouble>
        ensures log { self.new.log ≡ self.old.log }
        ensures said { IfOk result (λ message. IsSaid message self.old self.new) }
        ensures written { self.new.written ≡ self.old.written }
        ensures step { self.new.is_in_step ≡ is_ok result }
        ensures silent { self.old.is_in_step ≡ false → IsErr result × (self.new ≡ self.old) }
    {
        if !self.is_in_step {
            return Err(Trouble::Absent);
        }
        if let Some(frame) = take_first(&mut self.kept) {
            return Ok(Some(frame));
        }
        self.read_unasked()
    }

    /// The frame that the next line says.
    fn read_unasked(&mut self) -> Result<Option<Frame24>, Trouble>
        ensures log { self.new.log ≡ self.old.log }
        ensures said { IfOk result (λ message. IsUnasked message self.old self.new) }
        ensures written { self.new.written ≡ self.old.written }
        ensures step { self.new.is_in_step ≡ is_ok result }
    {
        self.is_in_step = false;
        let Some(line) = &mut self.line else {
            return Err(Trouble::Absent);
        };
        let frame = read_event(&mut line.from)?;
        self.is_in_step = true;
        Ok(Some(frame))
    }

    /// Notes what a call that hears came to, and gives it.
    fn note_heard(
        &mut self,
        message: Result<Option<Frame24>, Trouble>,
    ) -> Result<Option<Frame24>, Fault>
        requires { 0 < self.old.log.spare }
        ensures same { self.new ≡ record self.old { log = after_hear result self.old.log } }
        ensures ok { IfOk message (λ said. result ≡ Ok said) }
        ensures err { OnErr message (IsErr result) }
        ensures all { TellsAll result self.old.log }
    {
        self.hears = self.hears.saturating_add(1);
        self.heard_none = matches!(message, Ok(None));
        match message {
            Ok(Some(frame)) => {
                self.heard.push(&frame);
                self.spare -= 1;
                Ok(Some(frame))
            }
            Ok(None) => Ok(None),
            Err(trouble) => {
                self.note_trouble(trouble);
                self.failures = self.failures.wrapping_add(1);
                Err(Fault)
            }
        }
    }

    /// Notes a call that heard nothing, of an interface that says unasked what comes, and said
    /// nothing. Nothing was said to it.
    pub fn hear_nothing(&mut self)
        ensures same { self.new ≡ record self.old { log = after_hear (Ok None) self.old.log } }
        ensures all { HasHeardAll self.old.log }
    {
        self.hears = self.hears.saturating_add(1);
        self.heard_none = true;
    }

    /// Why the last request on the line came to nothing, where one did.
    pub fn trouble(&self) -> &Trouble {
        &self.trouble
    }

    /// The reader of the line, where there is one, to look at it.
    pub fn reader(&self) -> Option<&R>
        ensures { IfSome result (λ from. R.remaining from.now ≡ self.now.unread) }
    {
        match &self.line {
            Some(line) => Some(line.reader()),
            None => None,
        }
    }

    /// The writer of the line, where there is one, to look at it.
    pub fn writer(&self) -> Option<&W>
        ensures { IfSome result (λ to. W.contents to.now ≡ self.now.written) }
    {
        match &self.line {
            Some(line) => Some(line.writer()),
            None => None,
        }
    }

    /// The interface has no time left for what is to be asked: from now on each call fails, and says
    /// and reads nothing. The line stays, so that it can be let go of.
    pub fn fall_silent(&mut self)
        ensures { self.new ≡ record self.old { is_in_step = false } }
    {
        if self.is_in_step {
            self.is_in_step = false;
            self.trouble = Trouble::Silent;
        }
    }

    /// Notes why a request came to nothing: the first that did tells why those after it fail.
    fn note_trouble(&mut self, trouble: Trouble)
        ensures { self.new ≡ self.old }
    {
        if !matches!(trouble, Trouble::Absent) {
            self.trouble = trouble;
        }
    }

    /// Has a frame sent, and reads what became of it.
    #[tactic(auto, using(crate::proofs::Writing::not_begun))]
    fn try_to_send(&mut self, frame: &Frame, priority: u8) -> Result<Reply, Trouble>
        ensures log { self.new.log ≡ self.old.log }
        ensures asked { IfOk result (λ reply. IsExchange (send_line frame.now priority)
            (λ line. IsReply reply line) self.old self.new) }
        ensures at_most { IsAtMost (send_line frame.now priority ++ line_end)
            self.old.written self.new.written }
        ensures step { self.new.is_in_step ≡ is_ok result }
        ensures silent { self.old.is_in_step ≡ false → IsErr result × (self.new ≡ self.old) }
    {
        if !self.is_in_step {
            return Err(Trouble::Absent);
        }
        self.is_in_step = false;
        let Some(line) = &mut self.line else {
            return Err(Trouble::Absent);
        };
        ask_to_send(&mut line.to, frame, priority)?;
        let answer = read_past(&mut line.from, line.announces, &mut self.kept)?;
        let Some(reply) = reply_in(answer.as_slice()) else {
            return Err(Trouble::of(answer));
        };
        self.is_in_step = true;
        Ok(reply)
    }

    /// The frame that was kept first; where none is, what the interface answers.
    #[tactic(auto, using(crate::proofs::Writing::not_begun))]
    fn try_to_hear(&mut self) -> Result<Option<Frame24>, Trouble>
        ensures log { self.new.log ≡ self.old.log }
        ensures asked { IfOk result (λ message. IsHeard message self.old self.new) }
        ensures at_most { IsAtMost (hear_line ++ line_end) self.old.written self.new.written }
        ensures step { self.new.is_in_step ≡ is_ok result }
        ensures silent { self.old.is_in_step ≡ false → IsErr result × (self.new ≡ self.old) }
    {
        if !self.is_in_step {
            return Err(Trouble::Absent);
        }
        if let Some(frame) = take_first(&mut self.kept) {
            return Ok(Some(frame));
        }
        self.ask_what_came()
    }

    /// Asks for what has come, and reads it.
    #[tactic(auto, using(crate::proofs::Writing::not_begun))]
    fn ask_what_came(&mut self) -> Result<Option<Frame24>, Trouble>
        requires { self.old.kept ≡ [] }
        ensures log { self.new.log ≡ self.old.log }
        ensures asked { IfOk result
            (λ message. IsAnswered self.old.announces message self.old self.new) }
        ensures at_most { IsAtMost (hear_line ++ line_end) self.old.written self.new.written }
        ensures step { self.new.is_in_step ≡ is_ok result }
    {
        self.is_in_step = false;
        let Some(line) = &mut self.line else {
            return Err(Trouble::Absent);
        };
        ask_to_hear(&mut line.to)?;
        let answer = read_past(&mut line.from, line.announces, &mut self.kept)?;
        let Some(message) = first_said(line.announces, answer.as_slice(), &mut self.kept) else {
            return Err(Trouble::of(answer));
        };
        self.is_in_step = true;
        Ok(message)
    }

    /// Notes a frame that was sent, and what became of it.
    fn note_sent(&mut self, frame: Frame, priority: u8, mark: Mark)
        requires { 0 < self.old.log.spare }
        ensures { self.new ≡ record self.old {
          log = with_sent frame priority mark self.old.log;
        } }
    {
        self.sent.push(&Sent {
            frame,
            priority,
            mark,
        });
        self.spare -= 1;
    }
}

impl<R: Read + Drop, W: Write + Drop> Bus for LineBus<R, W> {
    ghost log = { λ b. b.log };

    fn room(&mut self, frames: usize) -> Result<(), AllocError>
        ensures made { OnOk result (frames ≤ self.new.log.spare) }
        ensures already { frames ≤ self.old.log.spare → IsOk result }
        ensures keeps { self.old.log.spare ≤ self.new.log.spare }
        ensures always { IsOk result }
        ensures same { self.new ≡ record self.old {
          log = with_spare self.new.log.spare self.old.log;
        } }
    {
        self.spare = self.spare.max(frames);
        Ok(())
    }

    fn send(&mut self, frame: Frame, priority: u8) -> Result<Reply, Fault>
        requires { 0 < self.old.log.spare }
        ensures logged { self.new.log ≡ after_send frame priority result self.old.log }
        ensures asked { IfOk result (λ reply. IsExchange (send_line frame priority)
            (λ line. IsReply reply line) self.old self.new) }
        ensures at_most { IsAtMost (send_line frame priority ++ line_end)
            self.old.written self.new.written }
        ensures step { self.new.is_in_step ≡ is_ok result }
        ensures silent { self.old.is_in_step ≡ false → IsSilent result self.old self.new }
    {
        match self.try_to_send(&frame, priority) {
            Ok(reply) => {
                self.note_sent(frame, priority, Mark::from(reply));
                Ok(reply)
            }
            Err(trouble) => {
                self.note_trouble(trouble);
                self.note_sent(frame, priority, Mark::Failed);
                self.failures = self.failures.wrapping_add(1);
                Err(Fault)
            }
        }
    }

    fn hear(&mut self) -> Result<Option<Frame24>, Fault>
        requires { 0 < self.old.log.spare }
        ensures logged { self.new.log ≡ after_hear result self.old.log }
        ensures all { TellsAll result self.old.log }
        ensures asked { IfOk result (λ message. IsHeard message self.old self.new) }
        ensures at_most { IsAtMost (hear_line ++ line_end) self.old.written self.new.written }
        ensures step { self.new.is_in_step ≡ is_ok result }
        ensures silent { self.old.is_in_step ≡ false → IsSilent result self.old self.new }
    {
        let message = self.try_to_hear();
        self.note_heard(message)
    }

    fn mend(&mut self) -> bool
        ensures same { self.new ≡ record self.old { log = after_mend result self.old.log } }
        ensures when { result ≡ (self.old.is_in_step && self.old.log.is_mended) }
    {
        self.is_mended = self.is_in_step && self.is_mended;
        self.is_mended
    }

    fn resume(&mut self)
        ensures { self.new ≡ record self.old { log = after_resume self.old.log } }
    {
        self.mends = self.mends.wrapping_add(1);
        self.is_mended = false;
    }
}
