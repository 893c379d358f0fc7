//! The first word that is at fault.

use crate::expected_words::ExpectedFault;
use crate::line_words::LineWordFault;
use crate::watched_names::WatchedFault;

/// The first word that is at fault among those of one option.
#[derive(Clone, Copy)]
pub enum WordFault<'a> {
    /// Of `--line`.
    Line(LineWordFault<'a>),
    /// Of `--expect`.
    Expected(ExpectedFault<'a>),
    /// Of `--watch`.
    Watched(WatchedFault<'a>),
}

impl<'a> From<LineWordFault<'a>> for WordFault<'a> {
    ghost use Rattle.std.specs.Prelude.{◌≡◌};
    ghost use Rattle.commandline.specs.declared.word_fault.WordFault.TheVariants.{Line};

    ghost from_gives = { λ fault word_fault. word_fault ≡ Line fault };

    fn from(fault: LineWordFault<'a>) -> Self {
        WordFault::Line(fault)
    }
}

impl<'a> From<ExpectedFault<'a>> for WordFault<'a> {
    ghost use Rattle.std.specs.Prelude.{◌≡◌};
    ghost use Rattle.commandline.specs.declared.word_fault.WordFault.TheVariants.{Expected};

    ghost from_gives = { λ fault word_fault. word_fault ≡ Expected fault };

    fn from(fault: ExpectedFault<'a>) -> Self {
        WordFault::Expected(fault)
    }
}

impl<'a> From<WatchedFault<'a>> for WordFault<'a> {
    ghost use Rattle.std.specs.Prelude.{◌≡◌};
    ghost use Rattle.commandline.specs.declared.word_fault.WordFault.TheVariants.{Watched};

    ghost from_gives = { λ fault word_fault. word_fault ≡ Watched fault };

    fn from(fault: WatchedFault<'a>) -> Self {
        WordFault::Watched(fault)
    }
}
