//! Where what is written beside a building goes.

use std::alloc::Global;
use std::io;

/// How a file is written whole.
#[derive(Clone, Copy, PartialEq, Eq, Debug)]
pub enum Care {
    /// A loss of power may take it away.
    Passing,
    /// It lasts beyond a loss of power.
    Lasting,
    /// It lasts, and its owner alone may read it.
    Private,
}

impl Care {
    /// Whether it lasts beyond a loss of power.
    pub fn lasts(self) -> bool {
        match self {
            Care::Passing => false,
            Care::Lasting | Care::Private => true,
        }
    }
}

/// The files, the standard error and the clock of a machine, or what stands for them.
pub trait Storage {
    ghost use Rattle.std.specs.Prelude.{⊤, ℕ, List, MatchResult};

    // The file at a path took these bytes, and has no others.
    ghost replaced: { Self → List ℕ → List ℕ → Type 0 };

    // The file at a path took these bytes behind those that it had.
    ghost appended: { Self → List ℕ → List ℕ → Type 0 };

    // The file at a path was not written.
    ghost unwritten: { Self → List ℕ → Type 0 };

    /// Writes these bytes behind those of the file at this path, which is made where it is not
    /// there. Answers how many bytes it has then.
    ///
    /// # Errors
    ///
    /// They cannot be written. The file has what it had, where the machine takes back what it
    /// began.
    fn append(&self, path: &str, bytes: &[u8]) -> io::Result<u64>
        ensures { MatchResult result (λ _. appended self.now path.now bytes.now)
            (λ _. unwritten self.now path.now) };

    /// Ends the last line of the file at this path, which is made where it is not there. Answers
    /// how many bytes it has then.
    ///
    /// # Errors
    ///
    /// It cannot be written.
    fn end_line(&self, path: &str) -> io::Result<u64>
        ensures { MatchResult result (λ _. ⊤) (λ _. unwritten self.now path.now) };

    /// Puts a file with these bytes at this path. It is written beside it, as a new file, and
    /// renamed, so that whoever reads the path finds the old bytes or the new ones; after a loss of
    /// power too, where it is to last.
    ///
    /// # Errors
    ///
    /// It cannot be written. What was there stays.
    fn replace(&self, alloc: Global, path: &str, bytes: &[u8], care: Care) -> io::Result<()>
        ensures { MatchResult result (λ _. replaced self.now path.now bytes.now)
            (λ _. unwritten self.now path.now) };

    /// The first bytes of the file at this path, as many as a scenario may have.
    ///
    /// # Errors
    ///
    /// There is none (`NotFound`), or it cannot be read.
    fn read(&self, alloc: Global, path: &str) -> io::Result<Vec<u8>>;

    /// Gives a file another path, in place of a file that is there.
    ///
    /// # Errors
    ///
    /// It cannot be renamed.
    fn rename(&self, from: &str, to: &str) -> io::Result<()>;

    /// Writes this text to standard error.
    ///
    /// # Errors
    ///
    /// It cannot be written.
    fn tell(&self, text: &str) -> io::Result<()>;

    /// The seconds since the beginning of 1970, UTC; 0 where the clock cannot be read.
    fn seconds(&self) -> u64;

    /// The memory that the program holds, in KiB, where it is known.
    fn memory(&self) -> Option<u64>;

    /// Why the line of this bus is down, as it was found last, where that is known.
    fn why_down(&self, _alloc: Global, _bus: u8) -> Option<String> {
        None
    }
}
