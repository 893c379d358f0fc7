//! Explanations why a text is not loaded.

ghost use Rattle.std.specs.Prelude.{◌≡◌, ◌<◌, ◌⊎◌, ℕ, IfOk, Some, length};
ghost use Rattle.ilsource.specs.Places.{line_at};
ghost use Rattle.iltext.specs.declared.fault.TextCause.{TextCause};
ghost use Rattle.iltext.specs.declared.fault.TextFault.TheVariants as text_faults;
ghost use Rattle.plantload.specs.Loading.{IsLoadFault};
ghost use Rattle.plantload.specs.declared.fault.LoadFault.TheVariants as faults;
ghost use Rattle.explaincures.specs.Trying.{IsEnd, changed, content_of, last_line};
ghost use Rattle.explaincures.specs.declared.answers.Example.TheVariants.{Changed};
ghost use Rattle.explaincures.specs.declared.edits.Edit.{Edit};

use explaining::{AskedText, Explanation, explanation_of};
use iltext::TextCause;
use plantload::NotLoaded;
use std::alloc::{AllocError, Global};

/// `another_place_is_explained`: the explanation stood at the first place of the text, or at the
/// next one of the line.
pub fn explanation_stands_at_the_fault(
    alloc: Global,
    asked: &AskedText,
    stop: &NotLoaded,
    cause: TextCause,
) -> Result<(usize, Option<usize>), AllocError>
    requires { stop.now.fault ≡ faults.Text (text_faults.At 3 5 cause) }
    ensures line { IfOk result (λ place. place.0 ≡ 3) }
    ensures col { IfOk result (λ place. place.1 ≡ Some 5) }
{
    let told = explanation_of(alloc, asked, stop)?;
    Ok((told.line, told.mark))
}

/// `change_is_shown_untried`: a change was shown though the text with it is refused up to the line
/// of the fault, and does not end there.
pub fn shown_change_was_tried(
    alloc: Global,
    asked: &AskedText,
    stop: &NotLoaded,
    cause: TextCause,
) -> Result<Explanation, AllocError>
    requires { stop.now.fault ≡ faults.Text (text_faults.At 3 5 cause) }
    ensures { let text = asked.now.text.now in
        IfOk result (λ told. (edit : Edit) (line col : ℕ) (why : TextCause)
        → told.answer.example ≡ Changed edit
        → IsLoadFault asked.now.binding.now (changed edit text)
        (faults.Text (text_faults.At line col why))
        → (last_line edit text (changed edit text) 3 < line)
        ⊎ (line ≡ line_at (changed edit text) (length (changed edit text)))) }
{
    explanation_of(alloc, asked, stop)
}

/// `nothing_is_added_at_the_end`: a change was shown that adds nothing, of a text that ends too
/// early, though it ends too early with it as well.
pub fn change_at_the_end_adds(
    alloc: Global,
    asked: &AskedText,
    stop: &NotLoaded,
    line: usize,
    col: usize,
    cause: TextCause,
) -> Result<Explanation, AllocError>
    requires fault { stop.now.fault ≡ faults.Text (text_faults.At line col cause) }
    requires place { IsEnd asked.now.text.now line col }
    ensures { let text = asked.now.text.now in
        IfOk result (λ told. (edit : Edit) (found mark : ℕ) (why : TextCause)
        → told.answer.example ≡ Changed edit
        → IsLoadFault asked.now.binding.now (changed edit text)
        (faults.Text (text_faults.At found mark why))
        → IsEnd (changed edit text) found mark
        → content_of text < content_of (changed edit text)) }
{
    explanation_of(alloc, asked, stop)
}
