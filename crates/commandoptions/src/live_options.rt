//! How a building is run.

use crate::beside::Beside;

/// How large a run may become.
#[derive(Clone, Copy)]
pub struct RunSize {
    /// The most events of its history.
    pub limit: u32,
    /// How many scan workers it has.
    pub workers: u32,
}

/// How a building is run.
#[derive(Clone, Copy)]
pub struct LiveOptions<'a> {
    /// The milliseconds from one tick of the clock to the next, where they are given.
    pub period: Option<u32>,
    /// The seconds after which it ends, where they are given.
    pub seconds: Option<u32>,
    /// The path of the file by which it is ended, where one is given.
    pub stop: Option<&'a str>,
    /// How large a run may become, after whose end the next one goes on.
    pub size: RunSize,
    /// Whether it ends where a bus has gone down.
    pub ends_on_down: bool,
    /// The milliseconds that all answers of a transaction may take before its bus goes down, 100 to
    /// 60,000.
    pub patience: u32,
    /// What is written beside it.
    pub beside: Beside<'a>,
}
