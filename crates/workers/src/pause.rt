//! How long an idle worker sleeps.

ghost use Rattle.std.specs.Prelude.{◌≡◌, ◌*◌};
ghost use Rattle.std.specs.Duration.{as_nanos};
ghost use Rattle.workers.specs.Pauses.{shortest, next_sleep};

use std::marker::Model;
use std::thread;
use std::time::{Clock as Timer, Duration};

/// How long a worker sleeps that was not idle before, in microseconds.
const SHORTEST: u64 = 50;

/// How long a worker sleeps at most, in microseconds.
const LONGEST: u64 = 5_000;

/// The sleeps of a worker: each is twice as long as the one before, up to the longest, until the
/// worker begins anew. Contracts see how long the next one is, in microseconds.
#[derive(Drop)]
pub(crate) struct Pause {
    micros: u64,
}

impl Model for Pause {
    ghost use Rattle.std.specs.Prelude.{ℕ};

    ghost Value = { ℕ };

    ghost view = { λ p. p.micros };

    ghost use Rattle.workers.specs.Pauses.{IsSleep};

    ghost invariant = { λ p. IsSleep p.micros };
}

impl Pause {
    /// The sleeps of a worker that was not idle yet.
    pub(crate) fn new() -> Pause
        ensures { result ≡ shortest }
    {
        Pause { micros: SHORTEST }
    }

    /// How long the worker sleeps next.
    fn next_sleep(&mut self) -> Duration
        ensures sleep { as_nanos result ≡ self.old * 1_000 }
        ensures next { self.new ≡ next_sleep self.old }
    {
        let micros = self.micros;
        self.micros = (micros * 2).min(LONGEST);
        Duration::from_micros(micros)
    }

    /// Lets others work for a while.
    pub(crate) fn wait<R: Timer>(&mut self, rt: &R)
        ensures { self.new ≡ next_sleep self.old }
    {
        thread::sleep(rt, self.next_sleep());
    }

    /// The next sleep is the shortest again, since there was something to do.
    pub(crate) fn begin_anew(&mut self)
        ensures { self.new ≡ shortest }
    {
        self.micros = SHORTEST;
    }
}
