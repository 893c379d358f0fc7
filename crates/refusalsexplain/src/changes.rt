//! Changes of a text that are tried, and what a change may take away.

ghost use Rattle.std.specs.Prelude.{◌≡◌, ◌≢◌, ◌+◌, ◌∷◌, [], IfOk, None, false, true};
ghost use Rattle.iltext.specs.declared.fault.TextFault.TheVariants as text_faults;
ghost use Rattle.ilcompile.specs.Loaded.{Loaded};
ghost use Rattle.plantload.specs.Loading.{IsLoadFault, IsSetup};
ghost use Rattle.plantload.specs.declared.fault.LoadFault.TheVariants as faults;
ghost use Rattle.explaincures.specs.Trying.{IsEnd, changed, content_of, last_line};
ghost use Rattle.explaincures.specs.declared.edits.EditOutcome.TheVariants.{Accepted, Ended, Text};
ghost use Rattle.explaincures.specs.declared.edits.Side.{Side};
ghost use Rattle.explaincures.specs.declared.edits.Side.TheVariants.{There};

use explaincures::{AskedText, Edit, EditOutcome, Spot, is_end, left_out};
use ilsource::LineColumn;
use iltext::TextCause;
use plantload::LoadFault;
use std::alloc::{AllocError, Global};

/// `refused_change_is_accepted`: a change was said to be accepted though something stands against
/// the text with it.
pub fn refused_change_is_not_accepted(
    alloc: Global,
    asked: &AskedText,
    edit: &Edit,
    line: usize,
    fault: LoadFault,
) -> Result<EditOutcome, AllocError>
    requires { IsLoadFault asked.now.binding.now (changed edit.now asked.now.text.now) fault }
    ensures { IfOk result (λ outcome. outcome ≢ Accepted) }
{
    edit.outcome(alloc, asked, line)
}

/// `accepted_change_is_refused`: a change was said to be refused though nothing stands against the
/// text with it.
pub fn accepted_change_is_accepted(
    alloc: Global,
    asked: &AskedText,
    edit: &Edit,
    line: usize,
) -> Result<EditOutcome, AllocError>
    requires { (setup : Loaded)
        × IsSetup asked.now.binding.now (changed edit.now asked.now.text.now) setup }
    ensures { IfOk result (λ outcome. outcome ≡ Accepted) }
{
    edit.outcome(alloc, asked, line)
}

/// `next_line_is_one_of_the_change`: a fault on the first line behind a change, and behind the line
/// that it is to cure, was said to stand there.
pub fn fault_behind_a_change_is_not_there(
    alloc: Global,
    asked: &AskedText,
    edit: &Edit,
    line: usize,
    cause: TextCause,
) -> Result<EditOutcome, AllocError>
    requires { let text = asked.now.text.now in
        let bytes = changed edit.now text in
        IsLoadFault asked.now.binding.now bytes
        (faults.Text (text_faults.At (last_line edit.now text bytes line + 1) 1 cause)) }
    ensures { IfOk result (λ outcome. outcome ≢ Text There) }
{
    edit.outcome(alloc, asked, line)
}

/// `end_is_on_a_side`: a fault at the end of a text with a change was told by its side, as any other.
pub fn fault_at_the_end_has_no_side(
    alloc: Global,
    asked: &AskedText,
    edit: &Edit,
    line: usize,
    found: LineColumn,
    cause: TextCause,
) -> Result<EditOutcome, AllocError>
    requires fault { IsLoadFault asked.now.binding.now (changed edit.now asked.now.text.now)
        (faults.Text (text_faults.At found.line found.col cause)) }
    requires end { IsEnd (changed edit.now asked.now.text.now) found.line found.col }
    ensures { IfOk result (λ outcome. (side : Side) → outcome ≢ Text side) }
{
    edit.outcome(alloc, asked, line)
}

/// `blank_is_more`: of a text that ends too early with a change that adds blanks alone, more was said
/// to stand in it.
pub fn blanks_are_nothing_more(
    alloc: Global,
    asked: &AskedText,
    edit: &Edit,
    line: usize,
    fault: LoadFault,
) -> Result<EditOutcome, AllocError>
    requires fault { IsLoadFault asked.now.binding.now (changed edit.now asked.now.text.now) fault }
    requires content { content_of (changed edit.now asked.now.text.now)
        ≡ content_of asked.now.text.now }
    ensures { IfOk result (λ outcome. outcome ≢ Ended true) }
{
    edit.outcome(alloc, asked, line)
}

/// `last_line_is_the_end`: each place of the last line was taken for the text's end.
pub fn first_column_is_no_end(text: &[u8]) -> bool
    requires { text.now ≡ 76 ∷ 68 ∷ [] }
    ensures { result ≡ false }
{
    is_end(text, 1, 1)
}

/// `letter_is_left_out`: what was left out had a meaning.
pub fn letter_is_not_left_out(alloc: Global, spot: &Spot) -> Result<Option<Edit>, AllocError>
    requires text { spot.now.text.now ≡ 78 ∷ [] }
    requires at { spot.now.at ≡ 0 }
    ensures { IfOk result (λ found. found ≡ None) }
{
    left_out(alloc, spot)
}
