//! Declarations of tasks and of program instances (IEC 61131-3, 2.7.2).

ghost use Rattle.std.specs.Prelude.{◌≡◌};
ghost use Rattle.iltokens.specs.Items.{begins, opt};
ghost use Rattle.iltokens.specs.Results.{Gives};
ghost use Rattle.iltext.specs.Tasks.{duration, single, interval, priority, inputs, task, tasks};
ghost use Rattle.iltext.specs.Tasks.{with_task, program_instance, program_instances};

use crate::reading::{
    begins_word, line_ends, spaced_delimiter, spaced_name, spaced_number, spaced_word,
};
use crate::token::{Token, TokenKind};
use ilsource::{InstanceDeclaration, Name, TaskDeclaration};
use iltokens::{Delimiter, Keyword, ReadError, What};
use std::alloc::Global;

/// A duration, in milliseconds.
#[tactic(auto, unfolding(crate::specs::Tasks::duration))]
fn duration<'a>(ts: &'a [Token]) -> Result<(u32, &'a [Token]), ReadError<'a, Token>>
    ensures { Gives (λ x. (x.0, x.1.now)) result (duration.read ts.now) }
{
    match ts {
        [first, rest @ ..] => match first.kind {
            TokenKind::Good(What::Time(milliseconds)) => Ok((milliseconds, rest)),
            _ => Err(ReadError::Fault(ts)),
        },
        [] => Err(ReadError::Fault(ts)),
    }
}

/// `SINGLE ":=" name ","`
#[tactic(auto, unfolding(crate::specs::Tasks::single))]
fn single<'a>(ts: &'a [Token]) -> Result<(Name, &'a [Token]), ReadError<'a, Token>>
    ensures { Gives (λ x. (x.0, x.1.now)) result (single.read ts.now) }
{
    let rest = spaced_word(ts, Keyword::Single)?;
    let rest = spaced_delimiter(rest, Delimiter::Assign)?;
    let (name, rest) = spaced_name(rest)?;
    let rest = spaced_delimiter(rest, Delimiter::Comma)?;
    Ok((name, rest))
}

/// `[SINGLE ":=" name ","]`
#[tactic(auto, unfolding(crate::specs::Tasks::single))]
fn optional_single<'a>(ts: &'a [Token]) -> Result<(Option<Name>, &'a [Token]), ReadError<'a, Token>>
    ensures { Gives (λ x. (x.0, x.1.now)) result ((opt single).read ts.now) }
{
    if begins_word(ts, Keyword::Single) {
        let (name, rest) = single(ts)?;
        Ok((Some(name), rest))
    } else {
        Ok((None, ts))
    }
}

/// `INTERVAL ":=" duration ","`
#[tactic(auto, unfolding(crate::specs::Tasks::interval))]
fn interval<'a>(ts: &'a [Token]) -> Result<(u32, &'a [Token]), ReadError<'a, Token>>
    ensures { Gives (λ x. (x.0, x.1.now)) result (interval.read ts.now) }
{
    let rest = spaced_word(ts, Keyword::Interval)?;
    let rest = spaced_delimiter(rest, Delimiter::Assign)?;
    let (milliseconds, rest) = duration(rest)?;
    let rest = line_ends(rest);
    let rest = spaced_delimiter(rest, Delimiter::Comma)?;
    Ok((milliseconds, rest))
}

/// `[INTERVAL ":=" duration ","]`
#[tactic(auto, unfolding(crate::specs::Tasks::interval))]
fn optional_interval<'a>(
    ts: &'a [Token],
) -> Result<(Option<u32>, &'a [Token]), ReadError<'a, Token>>
    ensures { Gives (λ x. (x.0, x.1.now)) result ((opt interval).read ts.now) }
{
    if begins_word(ts, Keyword::Interval) {
        let (milliseconds, rest) = interval(ts)?;
        Ok((Some(milliseconds), rest))
    } else {
        Ok((None, ts))
    }
}

/// `PRIORITY ":=" number`
#[tactic(auto, unfolding(crate::specs::Tasks::priority))]
fn priority<'a>(ts: &'a [Token]) -> Result<(i64, &'a [Token]), ReadError<'a, Token>>
    ensures { Gives (λ x. (x.0, x.1.now)) result (priority.read ts.now) }
{
    let rest = spaced_word(ts, Keyword::Priority)?;
    let rest = spaced_delimiter(rest, Delimiter::Assign)?;
    spaced_number(rest)
}

/// What a task is given: the variable of SINGLE, the milliseconds of INTERVAL, and PRIORITY.
type Inputs = (Option<Name>, (Option<u32>, i64));

/// `[SINGLE ":=" name ","] [INTERVAL ":=" duration ","] PRIORITY ":=" number`
#[tactic(auto, unfolding(crate::specs::Tasks::inputs))]
fn inputs<'a>(ts: &'a [Token]) -> Result<(Inputs, &'a [Token]), ReadError<'a, Token>>
    ensures { Gives (λ x. (x.0, x.1.now)) result (inputs.read ts.now) }
{
    let (single, rest) = optional_single(ts)?;
    let (interval, rest) = optional_interval(rest)?;
    let (priority, rest) = priority(rest)?;
    Ok(((single, (interval, priority)), rest))
}

/// `TASK name "(" inputs ")" ";"`
#[tactic(auto, unfolding(crate::specs::Tasks::task))]
fn task<'a>(ts: &'a [Token]) -> Result<(TaskDeclaration, &'a [Token]), ReadError<'a, Token>>
    ensures { Gives (λ x. (x.0, x.1.now)) result (task.read ts.now) }
{
    let rest = spaced_word(ts, Keyword::Task)?;
    let (name, rest) = spaced_name(rest)?;
    let rest = spaced_delimiter(rest, Delimiter::Open)?;
    let ((single, (interval, priority)), rest) = inputs(rest)?;
    let rest = spaced_delimiter(rest, Delimiter::Close)?;
    let rest = spaced_delimiter(rest, Delimiter::Semicolon)?;
    let task = TaskDeclaration {
        name,
        single,
        interval,
        priority,
    };
    Ok((task, rest))
}

#[tactic(auto, unfolding(crate::specs::Tasks::task))]
fn begins_task(ts: &[Token]) -> bool
    ensures { result ≡ begins task ts.now }
{
    begins_word(ts, Keyword::Task)
}

/// `{task}`
pub(crate) fn tasks<'a>(
    alloc: Global,
    ts: &'a [Token],
) -> Result<(Vec<TaskDeclaration>, &'a [Token]), ReadError<'a, Token>>
    ensures { Gives (λ x. (x.0.items, x.1.now)) result (tasks.read ts.now) }
{
    let mut all = Vec::new(alloc);
    let mut rest = ts;
    'all: while begins_task(rest) {
        let (one, after) = task(rest)?;
        all.push(one)?;
        rest = after;
    }
    Ok((all, rest))
}

/// `[WITH name]`
#[tactic(auto, unfolding(crate::specs::Tasks::with_task))]
fn optional_task<'a>(ts: &'a [Token]) -> Result<(Option<Name>, &'a [Token]), ReadError<'a, Token>>
    ensures { Gives (λ x. (x.0, x.1.now)) result ((opt with_task).read ts.now) }
{
    if begins_word(ts, Keyword::With) {
        let rest = spaced_word(ts, Keyword::With)?;
        let (name, rest) = spaced_name(rest)?;
        Ok((Some(name), rest))
    } else {
        Ok((None, ts))
    }
}

/// `PROGRAM name [WITH name] ":" name ";"`
#[tactic(auto, unfolding(crate::specs::Tasks::program_instance))]
fn program_instance<'a>(
    ts: &'a [Token],
) -> Result<(InstanceDeclaration, &'a [Token]), ReadError<'a, Token>>
    ensures { Gives (λ x. (x.0, x.1.now)) result (program_instance.read ts.now) }
{
    let rest = spaced_word(ts, Keyword::Program)?;
    let (name, rest) = spaced_name(rest)?;
    let (task, rest) = optional_task(rest)?;
    let rest = spaced_delimiter(rest, Delimiter::Colon)?;
    let (program, rest) = spaced_name(rest)?;
    let rest = spaced_delimiter(rest, Delimiter::Semicolon)?;
    let instance = InstanceDeclaration {
        name,
        task,
        program,
    };
    Ok((instance, rest))
}

#[tactic(auto, unfolding(crate::specs::Tasks::program_instance))]
fn begins_program_instance(ts: &[Token]) -> bool
    ensures { result ≡ begins program_instance ts.now }
{
    begins_word(ts, Keyword::Program)
}

/// `{program_instance}`
pub(crate) fn program_instances<'a>(
    alloc: Global,
    ts: &'a [Token],
) -> Result<(Vec<InstanceDeclaration>, &'a [Token]), ReadError<'a, Token>>
    ensures { Gives (λ x. (x.0.items, x.1.now)) result (program_instances.read ts.now) }
{
    let mut all = Vec::new(alloc);
    let mut rest = ts;
    'all: while begins_program_instance(rest) {
        let (one, after) = program_instance(rest)?;
        all.push(one)?;
        rest = after;
    }
    Ok((all, rest))
}
