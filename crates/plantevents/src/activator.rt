//! What activates tasks.

use dalievent::EventSource;

/// What activates a task (IEC 61131-3, 2.7.2).
#[derive(Clone, Copy)]
pub enum Activator {
    /// The clock, once in each interval of milliseconds, 1 or more.
    Interval {
        milliseconds: u32,
    },
    /// The event messages of a source that are heard on a bus.
    Messages {
        bus: u8,
        source: EventSource,
        /// What the count of the source begins at.
        first: u16,
    },
}

/// An event message that activated a task, which has not been taken for it yet.
#[derive(Clone, Copy)]
pub struct PendingEvent {
    /// The place of the event in the history.
    pub place: u64,
    /// The information of the message, 0 to 1023.
    pub information: u16,
    /// What the count of its source begins at and the messages of the source up to this one, modulo
    /// 65,536.
    pub count: u16,
}
