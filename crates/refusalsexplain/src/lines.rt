//! Lines that are shown in the place of bad ones of a binding or of a scenario.

ghost use Rattle.std.specs.Prelude.{◌≢◌, IfOk};
ghost use Rattle.explaincures.specs.declared.answers.Example.TheVariants.{Changed};
ghost use Rattle.explaincures.specs.declared.edits.Edit.{Edit};
ghost use Rattle.explainlines.specs.Curing.{CuresLine};

use explainlines::{BadLine, LineFile, bad_line};
use std::alloc::{AllocError, Global};
use wordlines::LineCause;

/// `untried_line_is_shown`: a line was shown as one with which the file could read, though the file
/// is bad up to there with each line.
pub fn line_that_cures_nothing_is_not_shown(
    alloc: Global,
    file: LineFile,
    bytes: &[u8],
    number: usize,
    cause: LineCause,
) -> Result<BadLine, AllocError>
    requires { (edit : Edit) → ¬ CuresLine file bytes.now number edit }
    ensures { IfOk result (λ bad. (edit : Edit) → bad.answer.example ≢ Changed edit) }
{
    bad_line(alloc, file, bytes, number, cause)
}
