//! The targets of jumps.
//!
//! A label stands after the jumps to it. So the lines are gone through from the last one to the
//! first, and a table keeps the nearest place of each label so far: a jump's target is then known
//! when the jump is met. The time grows with the number of lines, however many labels and jumps
//! there are. The words are made in a second pass, from the first line on, which takes the targets
//! one after another from the end of the list.

ghost use Rattle.std.specs.Prelude.{◌≡◌, ℕ, ◌+◌, ◌++◌, ◌≤◌, reverse, if◌then◌else◌, IfOk, OnOk};
ghost use Rattle.limits.specs.Limits.{most_words};
ghost use Rattle.ilsource.specs.Passes.{has_label};
ghost use Rattle.ilsource.specs.Words.{words_of_lines};
ghost use Rattle.ilplan.specs.PlanMeaning.{number_same};
ghost use Rattle.ilcompile.specs.LayoutSteps.{IsTaken, place_in, target_of, targets_of};

use ilplan::Place;
use ilsource::{Instruction, Line};
use std::alloc::{AllocError, Global};
use std::collections::HashMap;

/// How many words these lines are.
pub(crate) fn count(lines: &[Line<Place, usize>]) -> usize
    requires { words_of_lines lines.now ≤ most_words }
    ensures { result ≡ words_of_lines lines.now }
{
    let mut number = 0;
    for line in lines {
        number += line.words();
    }
    number
}

/// The target of each jump to a label, from the last jump to the first, in lines whose first word
/// is at `start`.
pub(crate) fn targets(
    alloc: Global,
    start: u32,
    lines: &[Line<Place, usize>],
) -> Result<Vec<u32>, AllocError>
    requires { start + words_of_lines lines.now ≤ most_words }
    ensures { IfOk result (λ targets. reverse targets.items ≡ targets_of start lines.now) }
{
    let mut labels = HashMap::new(alloc);
    let mut targets = Vec::new(alloc);
    let mut place = start + count(lines) as u32;
    for index in (0..lines.len()).rev() {
        let line = &lines[index];
        push_target(&mut targets, &labels, &line.instruction)?;
        place -= line.words() as u32;
        set_place(&mut labels, line.label, place)?;
    }
    Ok(targets)
}

/// Adds the target of an instruction that jumps to a label.
fn push_target(
    targets: &mut Vec<u32>,
    labels: &HashMap<usize, u32>,
    instruction: &Option<Instruction<Place, usize>>,
) -> Result<(), AllocError>
    ensures { OnOk result (targets.new.items
        ≡ targets.old.items ++ target_of (place_in labels.now) instruction.now) }
{
    if let Some(Instruction::Jump(_, label)) = instruction {
        targets.push(labels.get(label).copied().unwrap_or(0))?;
    }
    Ok(())
}

/// Sets the place of a line's label.
fn set_place(
    labels: &mut HashMap<usize, u32>,
    label: Option<usize>,
    place: u32,
) -> Result<(), AllocError>
    ensures { OnOk result ((other : ℕ) → place_in labels.new other
        ≡ (if has_label number_same other label then place else place_in labels.old other)) }
{
    if let Some(label) = label {
        labels.insert(label, place)?;
    }
    Ok(())
}

/// The last target, where the instruction jumps to a label, which is taken from the list.
pub(crate) fn next_target(
    targets: &mut Vec<u32>,
    instruction: &Option<Instruction<Place, usize>>,
) -> u32
    ensures { IsTaken instruction.now targets.old.items targets.new.items result }
{
    match instruction {
        Some(Instruction::Jump(..)) => targets.pop().unwrap_or(0),
        _ => 0,
    }
}
