//! What the user asks of a text.

use crate::files::Files;

/// What the user asks of a text.
#[derive(Clone, Copy)]
pub enum Inquiry<'a> {
    /// `check TEXT [BIND]`
    Check {
        files: Files<'a>,
    },
    /// `step TEXT [BIND] [TASK] [--scans N] [--every MS]`
    Step {
        files: Files<'a>,
        /// The task's name; without one, the text has one task.
        task: Option<&'a str>,
        scans: u32,
        every: u32,
    },
}

impl<'a> Inquiry<'a> {
    ghost use Rattle.std.specs.Prelude.{◌≡◌};
    ghost use Rattle.commandoptions.specs.Inquiries.{files_of};

    /// The files that the command reads.
    pub fn files(self) -> Files<'a>
        ensures { result ≡ files_of self.entry }
    {
        match self {
            Inquiry::Check { files } | Inquiry::Step { files, .. } => files,
        }
    }
}
