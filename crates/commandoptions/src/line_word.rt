//! The line of a bus.

/// The line of a bus, as words name it: `B=PATH` or `B=FROM,TO`, and at one line `PATH` or
/// `FROM,TO` beside the number of the bus.
#[derive(Clone, Copy)]
pub struct LineWord<'a> {
    /// The bus's number, below 64.
    pub bus: u8,
    /// The path that is read, and also written where there is no other one.
    pub from: &'a str,
    /// The path that is written, where it is another one.
    pub to: Option<&'a str>,
}

/// No path of bus 0, which fills the unused places of a collection of fixed capacity.
impl Default for LineWord<'_> {
    fn default() -> Self {
        LineWord {
            bus: 0,
            from: "",
            to: None,
        }
    }
}
