//! What the controller asks of a clock.
ghost use Rattle.std.specs.Prelude.{◌≡◌, IfSome};
ghost use Rattle.buslink.specs.ClockLog.{TellsEnd, after_now, IsNotBefore};

/// A clock, with the moments that it is to give where they are known, those that it gave so far,
/// and how often it was asked.
pub trait Clock: Drop {
    ghost use Rattle.buslink.specs.ClockLog.{ClockLog};

    ghost log: { Self → ClockLog };

    /// The moment that it is, in milliseconds, never below one that was given before; or none,
    /// where the clock has come to its end. It takes no memory: a clock makes the room that it
    /// needs when it is made.
    fn now(&mut self) -> Option<u64>
        ensures logged { log self.new ≡ after_now result (log self.old) }
        ensures never_falls { IfSome result (λ moment. IsNotBefore moment (log self.old)) }
        ensures ends { TellsEnd result (log self.old) };
}

/// A call goes to the clock in the box, and what became of that one became of the box.
impl Clock for Box<dyn Clock + Send> {
    ghost log = { λ c. (Clock-box c).log c.value };

    fn now(&mut self) -> Option<u64> {
        (**self).now()
    }
}
