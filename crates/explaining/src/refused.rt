//! Words that are refused, and what is said of a task that has one.

ghost use Rattle.std.specs.Prelude.{◌<◌, length, IfOk};
ghost use Rattle.explaincures.specs.Trying.{RunsOn, ShowsCure};

use crate::code_answers::answer_code;
use crate::mismatch::{Mismatch, mismatch_at};
use crate::requests::print_requests;
use crate::told::{Title, print_head};
use crate::ways::{Behind, operand_on, print_way};
use explaincures::{AskedText, FaultAnswer, Spot, first_column, place_of};
use ilblocks::{BlockKind, PortName};
use ilcode::{Code, Word};
use ilcompile::compile;
use illisting::{TaskNames, functions_in, line_at, print_deepest_calls, print_longest_calls};
use ilplan::Plan;
use ilverify::{Cause, Refusal};
use printout::Printout;
use std::alloc::{AllocError, Global};

/// A refused word with what it is asked about.
#[derive(Clone, Copy)]
pub(crate) struct Refused<'q, 'n> {
    pub asked: &'q AskedText<'q>,
    pub names: &'n TaskNames<'n>,
    pub refusal: Refusal,
    /// The value of the wrong type, or the divisor, where that is the cause.
    pub mismatch: Option<Mismatch>,
}

/// What is said of the refused word of a task, and the column of the operand that is wrong, where
/// one is. Where the task is the first one that is refused, it is printed what leads to the word.
pub(crate) fn answer_task(
    alloc: Global,
    asked: &AskedText,
    page: &mut Printout,
    is_first: bool,
    plan: &Plan,
    task: usize,
    refusal: Refusal,
) -> Result<(Option<usize>, FaultAnswer), AllocError>
    requires { task < length plan.now.tasks }
    ensures { IfOk result (λ told. ShowsCure asked.now.binding.now asked.now.text.now refusal.line
        (RunsOn task refusal.word) told.1) }
{
    let code = compile(alloc, plan, task)?;
    let functions = functions_in(alloc, plan, task)?;
    let names = TaskNames {
        plan,
        task,
        code: &code,
        functions: &functions,
    };
    let mismatch = mismatch_at(alloc, &code, refusal)?;
    let refused = Refused {
        asked,
        names: &names,
        refusal,
        mismatch,
    };
    let answer = answer_code(alloc, &refused)?;
    if is_first {
        print_calls(alloc, page, &refused)?;
    }
    Ok((refused.mark(), answer))
}

/// Prints what stands against a task, in a line.
pub(crate) fn print_refused(
    page: &mut Printout,
    asked: &AskedText,
    task: &str,
    refusal: Refusal,
    mark: Option<usize>,
    what: &str,
) {
    let col = mark.unwrap_or(first_column(asked.text, refusal.line));
    let title = Title::Refused(task, refusal.cause.number(), refusal.word);
    print_head(page, asked.path, (refusal.line, col), title, what);
}

/// Prints the calls or the way that lead to a refused word.
fn print_calls(alloc: Global, page: &mut Printout, refused: &Refused) -> Result<(), AllocError> {
    let (names, word) = (refused.names, refused.refusal.word);
    match refused.refusal.cause {
        Cause::TooLong => print_longest_calls(alloc, page, names),
        Cause::BadCall => print_deepest_calls(alloc, page, names, word),
        Cause::TooManyRequests => print_requests(alloc, page, names, word),
        _ => print_way(alloc, page, names, refused.asked.text, refused.refusal),
    }
}

impl<'q, 'n> Refused<'q, 'n> {
    /// The column of the operand that is of the wrong type, where one is.
    pub(crate) fn mark(&self) -> Option<usize> {
        Some(self.wrong_operand()?.front().len().saturating_add(1))
    }

    /// The operand that is of the wrong type, where one is.
    pub(crate) fn wrong_operand(&self) -> Option<Spot<'q>> {
        if !self.mismatch?.is_operand {
            return None;
        }
        self.operand_of(self.refusal.word)
    }

    /// The operand of the word at a place, where it stands on its line.
    pub(crate) fn operand_of(&self, place: usize) -> Option<Spot<'q>> {
        let code = self.names.code;
        let behind = match (input_of(code, place), code.get(place)) {
            (Some((_, name)), _) => Behind::Input(name.spelling()),
            (None, Some(Word::Give { slot, .. })) => {
                Behind::Function(operand_number(code, usize::from(slot)))
            }
            _ => Behind::Instruction,
        };
        operand_on(self.asked.text, line_at(code, place), behind)
    }

    /// The instruction of the line, behind a label.
    pub(crate) fn spot(&self) -> Spot<'q> {
        instruction_on(self.asked.text, self.refusal.line)
    }
}

/// The instruction of a line of a text, behind a label.
pub(crate) fn instruction_on<'q>(text: &'q [u8], line: usize) -> Spot<'q> {
    let first = Spot::of(text, place_of(text, line, first_column(text, line)));
    let (colon, to) = first.trimmed(first.found_to(), first.line_to);
    let (behind, _) = first.trimmed(colon.saturating_add(1), to);
    match first.part(colon, to) {
        [b':', _, ..] => Spot::of(text, behind),
        _ => first,
    }
}

/// The kind of the block of which a word gives an input, and the name of that.
pub(crate) fn input_of(code: &Code, word: usize) -> Option<(BlockKind, PortName)> {
    let Some(Word::Pass { port, block, .. }) = code.get(word) else {
        return None;
    };
    let kind = code.kinds().get(usize::from(block))?;
    Some((*kind, kind.ports().get(usize::from(port))?.name))
}

/// Which operand of a call goes to the input in a slot, from 1 on.
fn operand_number(code: &Code, slot: usize) -> usize {
    let mut number = 0;
    for body in code.functions() {
        if body.first <= slot {
            number = slot.saturating_sub(body.first);
        }
    }
    number
}
