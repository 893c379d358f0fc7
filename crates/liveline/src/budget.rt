//! The time that an interface has for all answers of one transaction together.

ghost use Rattle.std.specs.Prelude.{◌≡◌, ◌^◌, ◌-◌, ◌&&◌, ◌||◌, None, Some, false, min, not};
ghost use Rattle.std.specs.Time.{instant_nanos};
ghost use Rattle.liveline.specs.Budgets.{budget, first_moment, is_over_half, millis_from};
ghost use Rattle.liveline.specs.Budgets.{millis_left};

use std::time::Instant;

/// The time that an interface has for all answers of one transaction together. It begins with the
/// first frame, and no later frame begins it anew.
#[derive(Drop)]
pub(crate) struct Budget {
    /// Its milliseconds.
    pub(crate) patience: u64,
    /// When the first frame of the transaction was asked for, where one was.
    pub(crate) began: Option<Instant>,
    /// Whether more than half of it was used since the line was up.
    pub(crate) is_slow: bool,
}

impl Budget {
    /// A budget of so many milliseconds, of which none are used.
    pub(crate) fn new(patience: u64) -> Budget
        ensures { result ≡ budget patience None false }
    {
        Budget {
            patience,
            began: None,
            is_slow: false,
        }
    }

    /// A transaction begins. Its time begins with its first frame.
    pub(crate) fn begin_anew(&mut self)
        ensures { self.new ≡ budget self.old.patience None self.old.is_slow }
    {
        self.began = None;
    }

    /// The milliseconds that are left at this moment, at which the time begins if it did not yet.
    pub(crate) fn left_at(&mut self, now: Instant) -> u64
        ensures left { result ≡ millis_left self.old.patience
            (instant_nanos (first_moment self.old.began now)) (instant_nanos now) }
        ensures began { self.new ≡ budget self.old.patience
            (Some (first_moment self.old.began now)) self.old.is_slow }
    {
        let began = match self.began {
            Some(began) => began,
            None => now,
        };
        self.began = Some(began);
        self.patience.saturating_sub(millis_between(began, now))
    }

    /// Whether at this moment more than half of the time is used, for the first time since the line
    /// was up.
    pub(crate) fn turns_slow(&mut self, now: Instant) -> bool
        ensures slow { result ≡ (not self.old.is_slow
            && is_over_half self.old.patience self.old.began now) }
        ensures noted { self.new ≡ budget self.old.patience self.old.began
            (self.old.is_slow || result) }
    {
        if self.is_slow {
            return false;
        }
        self.is_slow = match self.began {
            Some(began) => millis_between(began, now) > self.patience / 2,
            None => false,
        };
        self.is_slow
    }

    /// The line is up again. Where it is slow from now on, that is the first time.
    pub(crate) fn forgive(&mut self)
        ensures { self.new ≡ budget self.old.patience self.old.began false }
    {
        self.is_slow = false;
    }
}

/// The whole milliseconds from one moment to another, 0 where that is before.
pub(crate) fn millis_between(from: Instant, to: Instant) -> u64
    ensures { result ≡ min (millis_from (instant_nanos from) (instant_nanos to)) (2 ^ 64 - 1) }
{
    let passed = to.duration_since(from).as_millis();
    u64::try_from(passed).unwrap_or(u64::MAX)
}
