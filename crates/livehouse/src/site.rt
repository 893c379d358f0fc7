//! Where the buses and the clock of a building are.

use crate::watch::{DownWatch, End};
use buslink::{Bus, Clock};
use commandoptions::LineWord;
use daliframe::BusNumber;
use std::alloc::{AllocError, Global};
use std::num::NonZeroU64;
use std::sync::Arc;

/// Why a line was not opened, or the clock was not made.
#[derive(Clone, Copy, PartialEq, Eq, Debug)]
pub enum SiteFault {
    /// The allocator is out of memory.
    Memory,
    /// It cannot be opened, or its interface does not greet.
    Failed,
    /// The end of the clock has come already.
    Ended,
}

impl From<AllocError> for SiteFault {
    fn from(_refused: AllocError) -> Self {
        SiteFault::Memory
    }
}

/// Where the lines of buses are opened and the clock is made: a machine, or what stands for one.
pub trait Site {
    ghost use Rattle.std.specs.Prelude.{◌≡◌, ℕ, IfOk, IfErr, IsSome, List, Option, option_map};
    ghost use Rattle.std.specs.Int.NonZero.{non_zero_u64_get};
    ghost use Rattle.livehouse.specs.Sites.{IsNewBus, IsNewClock};
    ghost use Rattle.commandoptions.specs.declared.line_word.LineWord.{LineWord};
    ghost use Rattle.livehouse.specs.declared.site.SiteFault.{SiteFault};
    ghost use Rattle.livehouse.specs.declared.site.SiteFault.TheVariants.{Ended};

    type Line: Bus + Send;

    type Clock: Clock + Send;

    // The line of this word cannot be opened, for this reason.
    ghost refuses: { Self → LineWord → SiteFault → Type 0 };

    // The bus is behind the line of this word, whose interface may be silent for so many
    // milliseconds.
    ghost is_of: { Self → Self.Line → LineWord → ℕ → Type 0 };

    // The clock gives a moment in each period of milliseconds, none before the first of these two,
    // none after the second, and none once there is a file at this path.
    ghost is_timed: { Self → Self.Clock → ℕ → ℕ → ℕ → Option (List ℕ) → Type 0 };

    /// The bus behind a line, which begins to be opened and greeted beside: until it has greeted
    /// each call fails. Nothing was sent or heard on the bus. The interface may be silent for so
    /// many milliseconds. Once the clock of this watch came to its end, the bus hears no more
    /// frames than an interface keeps.
    ///
    /// # Errors
    ///
    /// The allocator is out of memory.
    fn line<'a>(
        &self,
        alloc: Global,
        line: LineWord<'a>,
        number: BusNumber,
        patience: u32,
        watch: &Arc<DownWatch>,
    ) -> Result<Self::Line, AllocError>
        ensures new { IfOk result (λ bus. IsNewBus number (Self.Line.log bus)) }
        ensures of { IfOk result (λ bus. is_of self.now bus line.entry patience) };

    /// Waits until each of these lines has greeted or failed, a second at most.
    fn settle(&self, lines: &[Self::Line]);

    /// Why the line of this bus was not opened, or is down, as it was found last, where that is
    /// known.
    fn why(&self, _alloc: Global, _bus: u8) -> Option<String> {
        None
    }

    /// Opens the line of a bus and greets the interface at its other end. Nothing was sent or heard
    /// on the bus. The interface may be silent for the given number of milliseconds, and so long it
    /// may take.
    ///
    /// # Errors
    ///
    /// The allocator is out of memory; or the line cannot be opened, or its interface does not
    /// greet.
    fn open<'a>(
        &self,
        alloc: Global,
        line: LineWord<'a>,
        number: BusNumber,
        patience: u32,
    ) -> Result<Self::Line, SiteFault>
        ensures new { IfOk result (λ bus. IsNewBus number (Self.Line.log bus)) }
        ensures of { IfOk result (λ bus. is_of self.now bus line.entry patience) }
        ensures refused { IfErr result (refuses self.now line.entry) };

    /// The clock, at which it is `begins` now, and which gives a moment in each period of
    /// milliseconds, until the end. It gave none yet.
    ///
    /// # Errors
    ///
    /// The allocator is out of memory, the machine's clock cannot be read, or there is a file
    /// already at the path that ends it.
    fn clock<'a>(
        &self,
        alloc: Global,
        period: NonZeroU64,
        begins: u64,
        end: End<'a>,
    ) -> Result<Self::Clock, SiteFault>
        ensures new { IfOk result (λ clock. IsNewClock (Self.Clock.log clock)) }
        ensures timed { IfOk result (λ clock. is_timed self.now clock
            (non_zero_u64_get period) begins end.entry.until
            (option_map (λ path. path.now) end.entry.stop)) }
        ensures ended { IfErr result (λ fault. fault ≡ Ended → IsSome end.entry.stop) };
}
