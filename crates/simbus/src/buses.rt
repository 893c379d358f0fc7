//! Simulated buses.
ghost use Rattle.std.specs.Prelude.{◌≡◌, ◌+◌, ◌<◌, ◌≤◌, ◌↔◌, IfOk, IsOk, OnOk, IsTrue, length};
ghost use Rattle.std.specs.Prelude.{reverse, true};
ghost use Rattle.buslink.specs.BusLog.{TellsAll, after_arrival, after_send, with_spare, with_sent};
ghost use Rattle.buslink.specs.BusLog.{after_mend, after_resume};
ghost use Rattle.simbus.specs.Histories.{variables_at, instance_variables_at};
ghost use Rattle.simbus.specs.Simulated.{setup_in, new_bus, fate_at, Sends, Hears, after_hearing};
ghost use Rattle.simbus.specs.Simulated.{IsAsSetUp, arrived, all_arrived, due_mark, later_in};

use crate::equipment::Equipment;
use crate::scripts::fate_at;
use crate::{BusSetup, GearVariables, InstanceVariables, ScriptedReply};
use buslink::{Arrival, Bus, Fault, Mark, Reply, Sent};
use daliframe::{BusNumber, Frame, Frame24, InstanceNumber, ShortAddress};
use ghosts::Trace;
use std::alloc::{AllocError, Global};
use std::collections::VecDeque;
use std::marker::Model;
use wordlines::FrameFate;

/// A simulated bus. It never waits: a frame is answered at once, and a call that hears meets what
/// came or nothing.
#[derive(Drop)]
pub struct SimBus {
    number: BusNumber,
    equipment: Equipment,
    script: Vec<ScriptedReply>,
    /// What calls that hear have met. It has no bytes.
    met: Trace<Arrival>,
    waiting: VecDeque<Arrival>,
    later: VecDeque<Arrival>,
    sent: Vec<Sent>,
    heard: Vec<Frame24>,
    spare: usize,
    failures: u64,
    hears: u64,
    heard_none: bool,
}

impl Model for SimBus {
    ghost use Rattle.simbus.specs.Simulated.{Simulated};

    ghost Value = { Simulated };

    ghost use Rattle.simbus.specs.Insides.{simulated, IsSimBus};

    ghost view = { simulated };

    ghost invariant = { IsSimBus };
}

impl SimBus {
    /// What the script says of the next frame.
    fn fate(&self) -> Option<FrameFate>
        requires { 0 < self.now.log.spare }
        ensures { result ≡ fate_at self.now.script (length self.now.log.sent + 1) }
    {
        fate_at(self.script.as_slice(), self.sent.len() as u64 + 1)
    }

    /// Adds a frame that was sent, and what became of it.
    fn add(&mut self, frame: &Frame, priority: u8, mark: Mark)
        requires spare { 0 < self.old.log.spare }
        requires due { mark ≡ due_mark self.old.setup self.old.script (reverse self.old.log.sent)
            frame.now }
        ensures { self.new ≡ record self.old {
          log = with_sent frame.now priority mark
              self.old.log;
        } }
    {
        self.equipment.see(frame, mark);
        self.sent
            .push(Sent {
                frame: *frame,
                priority,
                mark,
            })
            .unwrap();
        self.spare -= 1;
    }

    /// A bus on which nothing happened.
    ///
    /// # Errors
    ///
    /// Memory was refused.
    pub fn new(alloc: Global, setup: BusSetup) -> Result<Self, AllocError>
        ensures { IfOk result (λ b. b ≡ new_bus
            setup.number (setup_in setup) setup.script.items setup.arrivals.items) }
    {
        let BusSetup {
            number,
            gears,
            memory,
            instances,
            script,
            arrivals,
        } = setup;
        let equipment = Equipment::new(alloc, gears.as_slice(), memory, instances.as_slice())?;
        Ok(SimBus {
            number,
            equipment,
            script,
            met: Trace::new(),
            waiting: VecDeque::with_capacity(alloc, arrivals.len())?,
            later: VecDeque::from_vec(arrivals),
            sent: Vec::new(alloc),
            heard: Vec::new(alloc),
            spare: 0,
            failures: 0,
            hears: 0,
            heard_none: false,
        })
    }

    /// The next of what comes later comes now, and is met by a call that hears. Answers whether
    /// there was any.
    pub fn arrive(&mut self) -> bool
        ensures any { IsTrue result ↔ (0 < length (later_in self.old.log.arrivals)) }
        ensures after { self.new ≡ arrived self.old }
        ensures log { self.new.log ≡ after_arrival self.old.log }
    {
        match self.later.pop_front() {
            Some(arrival) => {
                self.waiting.push_back(arrival).unwrap();
                true
            }
            None => false,
        }
    }

    /// All that comes later comes now, and is met by the calls that hear, one after another in its
    /// order. So a bus that is handed to a thread hears all its events.
    pub fn arrive_all(&mut self)
        ensures { self.new ≡ all_arrived self.old }
    {
        while self.arrive() {}
    }

    /// The variables of the gear at a short address after all frames that were sent, where there is
    /// gear.
    pub fn gear(&self, address: ShortAddress) -> Option<GearVariables>
        ensures { result ≡ variables_at self.now.setup (reverse self.now.log.sent) address }
    {
        self.equipment.gear(address)
    }

    /// The variables of an instance of a control device after all frames that were sent, where it
    /// is declared: whether it is enabled, and its event scheme.
    pub fn instance(
        &self,
        address: ShortAddress,
        number: InstanceNumber,
    ) -> Option<InstanceVariables>
        ensures { result ≡ instance_variables_at self.now.setup
            (reverse self.now.log.sent) address number }
    {
        self.equipment.instance(address, number)
    }

    /// What was heard is what has come and no longer waits, and what became of each frame is what
    /// the script, the gear and the devices make of it.
    pub fn is_as_set_up(&self)
        ensures { IsAsSetUp self.now }
    {
        let _sent = self.sent.len();
    }

    /// The frames that were sent, first to last.
    pub fn sent_frames(&self) -> &[Sent]
        ensures { result.now ≡ self.now.log.sent }
    {
        self.sent.as_slice()
    }

    /// The frames that were heard, first to last.
    pub fn heard_frames(&self) -> &[Frame24]
        ensures { result.now ≡ self.now.log.heard }
    {
        self.heard.as_slice()
    }
}

impl Bus for SimBus {
    ghost log = { λ b. b.log };

    fn room(&mut self, frames: usize) -> Result<(), AllocError>
        ensures made { OnOk result (frames ≤ self.new.log.spare) }
        ensures already { frames ≤ self.old.log.spare → IsOk result }
        ensures keeps { self.old.log.spare ≤ self.new.log.spare }
        ensures same { self.new ≡ record self.old {
          log = with_spare self.new.log.spare
              self.old.log;
        } }
    {
        if frames > self.spare {
            self.sent.reserve(frames)?;
            self.heard.reserve(frames)?;
            self.spare = frames;
        }
        Ok(())
    }

    fn send(&mut self, frame: Frame, priority: u8) -> Result<Reply, Fault>
        requires { 0 < self.old.log.spare }
        ensures answer { Sends self.old frame result }
        ensures after { self.new ≡ record
            self.old { log = after_send frame priority result self.old.log } }
    {
        match self.fate() {
            None => {
                let reply = self.equipment.reply(&frame);
                self.add(&frame, priority, Mark::from(reply));
                Ok(reply)
            }
            Some(FrameFate::Damaged) => {
                self.add(&frame, priority, Mark::Damaged);
                Ok(Reply::Damaged)
            }
            Some(FrameFate::Lost) => {
                self.add(&frame, priority, Mark::Lost);
                Ok(Reply::Lost)
            }
            Some(FrameFate::Fault) => {
                self.add(&frame, priority, Mark::Failed);
                self.failures = self.failures.wrapping_add(1);
                Err(Fault)
            }
        }
    }

    fn hear(&mut self) -> Result<Option<Frame24>, Fault>
        requires { 0 < self.old.log.spare }
        ensures heard { Hears self.old.waiting result }
        ensures after { self.new ≡ after_hearing result self.old }
        ensures all { TellsAll result self.old.log }
    {
        self.hears = self.hears.saturating_add(1);
        let next = self.waiting.pop_front();
        self.heard_none = next.is_none();
        let Some(arrival) = next else {
            return Ok(None);
        };
        self.met.push(&arrival);
        match arrival {
            Arrival::Frame(frame) => {
                self.heard.push(frame).unwrap();
                self.spare -= 1;
                Ok(Some(frame))
            }
            Arrival::Fault => {
                self.failures = self.failures.wrapping_add(1);
                Err(Fault)
            }
        }
    }

    /// A simulated interface that failed does not answer again.
    fn mend(&mut self) -> bool
        ensures after { self.new ≡ record self.old { log = after_mend result self.old.log } }
    {
        let _none = self.failures;
        false
    }

    fn resume(&mut self)
        requires { self.old.log.is_mended ≡ true }
        ensures after { self.new ≡ record self.old { log = after_resume self.old.log } }
    {
        let _none = self.failures;
        unreachable!()
    }
}
