//! What is written beside a building.

/// What is written beside a building that runs: each file by its path, where one is given.
#[derive(Clone, Copy)]
pub struct Beside<'a> {
    /// The log of what happens on its buses; `-` is standard error.
    pub log: Option<&'a str>,
    /// The bytes after which a file of the log is full, 10,000 to 4,000,000,000.
    pub log_size: u32,
    /// The scenario of what happened.
    pub record: Option<&'a str>,
    /// How it stands.
    pub status: Option<&'a str>,
    /// Whether how it stands is written as JSON.
    pub is_json: bool,
    /// The values that are kept for its next start.
    pub keep: Option<&'a str>,
}

impl Beside<'_> {
    /// Whether nothing is written beside the building.
    pub fn is_empty(&self) -> bool {
        self.log.is_none() && self.record.is_none() && self.status.is_none() && self.keep.is_none()
    }
}
