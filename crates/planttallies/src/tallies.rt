//! The tallies of a lock and those of threads, as callers see them.

ghost use Rattle.std.specs.Prelude.{◌≡◌, ◌≢◌, ℕ, ◌+◌, ◌-◌, ◌≤◌};

/// The tally of one seat, which stands in a thread: its amount is the number that the lock has
/// there.
pub trait Tally: Drop {
    ghost use Rattle.std.specs.Prelude.{ℕ};

    ghost seat: { Self → ℕ × ℕ };

    ghost amount: { Self → ℕ };
}

/// A number for each seat, under a lock: it is the amount of the tally of that seat. Nothing but
/// `add` and `sub` with that tally changes it.
pub trait Tallies<T: Tally>: Drop {
    ghost use Rattle.std.specs.Prelude.{ℕ};

    ghost number: { Self → ℕ × ℕ → ℕ };

    /// The two agree.
    fn audit(&mut self, tally: &mut T)
        ensures same { number self.old (T.seat tally.old) ≡ T.amount tally.old }
        ensures tallies { self.new ≡ self.old }
        ensures tally { tally.new ≡ tally.old };

    /// The two agree, and grow together.
    fn add(&mut self, tally: &mut T, by: u64)
        ensures same { number self.old (T.seat tally.old) ≡ T.amount tally.old }
        ensures mine { number self.new (T.seat tally.old) ≡ T.amount tally.old + by }
        ensures others { (k : ℕ × ℕ) → k ≢ T.seat tally.old
            → number self.new k ≡ number self.old k }
        ensures seat { T.seat tally.new ≡ T.seat tally.old }
        ensures amount { T.amount tally.new ≡ T.amount tally.old + by };

    /// The two agree, and fall together.
    fn sub(&mut self, tally: &mut T, by: u64)
        requires { by ≤ T.amount tally.old }
        ensures same { number self.old (T.seat tally.old) ≡ T.amount tally.old }
        ensures mine { number self.new (T.seat tally.old) ≡ T.amount tally.old - by }
        ensures others { (k : ℕ × ℕ) → k ≢ T.seat tally.old
            → number self.new k ≡ number self.old k }
        ensures seat { T.seat tally.new ≡ T.seat tally.old }
        ensures amount { T.amount tally.new ≡ T.amount tally.old - by };
}
