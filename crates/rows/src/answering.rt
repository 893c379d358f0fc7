//! A bus whose line gives the answers of a file.

ghost use Rattle.std.specs.Prelude.{◌≡◌, false};
ghost use Rattle.livehouse.specs.Sites.{IsNewBus};
ghost use Rattle.buslink.specs.BusLog.{after_mend};

use buslink::{Bus, Fault, Reply};
use daliframe::{BusNumber, Frame, Frame24};
use liveline::{Greeted, LineBus};
use std::alloc::AllocError;
use std::io;
use std::io::{Cursor, Sink};

/// A bus whose line answers what a file says, line by line, whatever is asked. It is greeted by the
/// number 0. Once it has failed it is greeted again, by the next number: it comes back where the
/// file goes on with the answer to that, and else it stays away.
#[derive(Drop)]
pub struct AnsweringLine {
    line: LineBus<Cursor<Vec<u8>>, Sink>,
    /// The number by which it is greeted next.
    number: u64,
}

impl AnsweringLine {
    /// The bus of this number whose line gives these answers, where they begin with a greeting;
    /// else its line is not there.
    pub fn new(answers: Vec<u8>, number: BusNumber) -> AnsweringLine
        ensures { IsNewBus number result.line.log }
    {
        let line = match Greeted::greet(Cursor::new(answers), io::sink(), 0) {
            Ok(greeted) => LineBus::over(greeted, number),
            Err(_) => LineBus::absent(number),
        };
        AnsweringLine { line, number: 1 }
    }

    /// The bus of this number whose line is not there.
    pub fn absent(number: BusNumber) -> AnsweringLine
        ensures { IsNewBus number result.line.log }
    {
        AnsweringLine {
            line: LineBus::absent(number),
            number: 1,
        }
    }

    /// Whether its interface greeted.
    pub fn is_there(&self) -> bool {
        self.line.is_in_step()
    }

    /// Greets the interface of a line that has failed, by the next number.
    fn greet_again(&mut self)
        ensures { after_mend false self.new.line.log ≡ after_mend false self.old.line.log }
    {
        let Some((from, to)) = self.line.let_go() else {
            return;
        };
        if let Ok(greeted) = Greeted::greet(from, to, self.number) {
            self.number = self.number.saturating_add(1);
            self.line.renew(greeted);
        }
    }
}

impl Bus for AnsweringLine {
    ghost log = { λ b. b.line.log };

    fn room(&mut self, frames: usize) -> Result<(), AllocError> {
        self.line.room(frames)
    }

    fn send(&mut self, frame: Frame, priority: u8) -> Result<Reply, Fault> {
        self.line.send(frame, priority)
    }

    fn hear(&mut self) -> Result<Option<Frame24>, Fault> {
        self.line.hear()
    }

    #[tactic(auto, using(crate::proofs::Mending::alike))]
    fn mend(&mut self) -> bool {
        if !self.line.is_in_step() {
            self.greet_again();
        }
        self.line.mend()
    }

    fn resume(&mut self) {
        self.line.resume();
    }
}
