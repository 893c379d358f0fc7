//! The files that commands read, by their paths.

/// The files that a command reads.
#[derive(Clone, Copy)]
pub struct Files<'a> {
    /// The path of the text.
    pub text: &'a str,
    /// The path of the binding; without it there is one bus.
    pub binding: Option<&'a str>,
}

/// The files that a scenario is played or run from.
#[derive(Clone, Copy)]
pub struct PlayFiles<'a> {
    /// The path of the text.
    pub text: &'a str,
    /// The path of the binding.
    pub binding: &'a str,
    /// The path of the scenario.
    pub scenario: &'a str,
    /// The path of the kept values with which it begins, where one is given.
    pub keep: Option<&'a str>,
}

/// The files that a building is run from.
#[derive(Clone, Copy)]
pub struct LiveFiles<'a> {
    /// The path of the text.
    pub text: &'a str,
    /// The path of the binding.
    pub binding: &'a str,
}
