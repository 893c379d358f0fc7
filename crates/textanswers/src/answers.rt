//! What a text is answered: its setup, or what scans of a task left, with their requests.

ghost use Rattle.std.specs.Prelude.{◌≡◌, ◌<◌, ℕ, List, Option, length, slice_get, Result, IfErr, IfOk};
ghost use Rattle.std.specs.Prelude.{IfSome, MatchOption, option_map};
ghost use Rattle.iltypes.specs.Values.{AreOf};
ghost use Rattle.ilplan.specs.Plans.{first_values, types_of};
ghost use Rattle.std.specs.Option.{option_copied};
ghost use Rattle.ilcompile.specs.Loaded.{Loaded};
ghost use Rattle.plantload.specs.Loading.{IsSetup};
ghost use Rattle.textanswers.specs.Answered.{IsCheckStop, IsChecked, IsFirstCalled, IsFound, IsStep};
ghost use Rattle.textanswers.specs.Answered.{IsMeantTask, IsStepStop, IsStepped, IsStopOrMemory};
ghost use Rattle.textanswers.specs.Answered.{NoneIsCalled, NoneIsMeant};
ghost use Rattle.textanswers.specs.Connected.{IsConnected, IsBindingStop};
ghost use Rattle.textanswers.specs.Responses.{IsAnswer, IsMade};
ghost use Rattle.textanswers.specs.Stepping.{AreScansOf, Run};
ghost use Rattle.textanswers.specs.declared.stop.Stop.{Stop};

use crate::scans;
use crate::scans::Scans;
use crate::stepped::Stepped;
use crate::stop::{Stop, UnknownTask};
use commandoptions::Inquiry;
use ilcompile::Setup;
use ilplan::Plan;
use plantload::{load, plan_of, runs_are_as_meant, setup_of};
use std::alloc::{AllocError, Global};
use wordlines::Binding;

/// What an inquiry is answered.
#[derive(Drop)]
pub enum Answer {
    Checked(Setup),
    Stepped(Stepped),
    Stopped(Stop),
}

/// The answer to an inquiry, of the bytes of a binding's file, if one is named, and of a text's.
pub fn respond(alloc: Global, inquiry: Inquiry, binding: Option<&[u8]>, text: &[u8]) -> Answer
    ensures { IsAnswer inquiry.entry (option_copied binding.entry) text.now result }
{
    match binding_of(alloc, binding) {
        Ok(binding) => respond_under(alloc, &binding, inquiry, text),
        Err(stop) => Answer::Stopped(stop),
    }
}

/// The answer to an inquiry under a binding.
fn respond_under(alloc: Global, binding: &Binding, inquiry: Inquiry, text: &[u8]) -> Answer
    ensures { IsMade binding.now text.now inquiry.entry result }
{
    match inquiry {
        Inquiry::Check { .. } => match check(alloc, binding, text) {
            Ok(setup) => Answer::Checked(setup),
            Err(stop) => Answer::Stopped(stop),
        },
        Inquiry::Step {
            task,
            scans,
            every,
            ..
        } => match step(alloc, binding, text, task, scans, every) {
            Ok(made) => Answer::Stepped(made),
            Err(stop) => Answer::Stopped(stop),
        },
    }
}

/// The binding that a file's bytes spell; without a file there is one bus.
///
/// # Errors
///
/// The file's first bad line, or that it is too long; or, where it binds a source of events, that
/// the allocator is out of memory.
pub fn binding_of(alloc: Global, bytes: Option<&[u8]>) -> Result<Binding, Stop>
    ensures binding { IfOk result (IsConnected (option_copied bytes.entry)) }
    ensures stop { IfErr result (IsBindingStop (option_copied bytes.entry)) }
{
    match bytes {
        None => Ok(Binding::one_bus(alloc)),
        Some(bytes) => match Binding::parse(alloc, bytes) {
            Ok(binding) => Ok(binding),
            Err(fault) => Err(Stop::from(fault)),
        },
    }
}

/// The setup of a text, or what stands against it.
///
/// # Errors
///
/// The fault that the text is not loaded for, or that the allocator is out of memory.
pub fn check(alloc: Global, binding: &Binding, text: &[u8]) -> Result<Setup, Stop>
    ensures setup { IfOk result (IsSetup binding.now text.now) }
    ensures stop { IfErr result (IsStopOrMemory (IsCheckStop binding.now text.now)) }
    // A text has at most one answer, but for out of memory.
    ensures one { (a b : Result Loaded Stop) → IsChecked binding.now text.now a
        → IsChecked binding.now text.now b → a ≡ b }
{
    Ok(load(alloc, text, binding)?)
}

/// The setup of a text, and the number of the first task of a name, in any letter case, or without
/// a name that of the only task.
///
/// # Errors
///
/// The text's first fault, else the least fault of its names, else that no task is meant, else the
/// first task whose code is refused; or that the allocator is out of memory.
pub(crate) fn find_task(
    alloc: Global,
    binding: &Binding,
    text: &[u8],
    task: Option<&str>,
) -> Result<(Setup, usize), Stop>
    ensures found { IfOk result (λ found. IsFound binding.now text.now
        (option_map (λ name. name.now) task.entry) found.0 found.1) }
    ensures stop { IfErr result (IsStopOrMemory (IsStepStop binding.now text.now
        (option_map (λ name. name.now) task.entry))) }
{
    let plan = plan_of(alloc, text, binding)?;
    let Some(number) = meant_task(&plan, task) else {
        return Err(Stop::NoTask(UnknownTask::of(alloc, &plan, task)?));
    };
    let setup = setup_of(alloc, plan)?;
    Ok((setup, number))
}

/// The requests of this many scans of the task of a name, or without a name of the only task, and
/// its variables after them: the first scan from their initial values, but TRUE at an event task's
/// trigger, and from block instances before their first call, `every` milliseconds apart.
///
/// # Errors
///
/// The text's first fault, else the least fault of its names, else that no task is meant, else the
/// first task whose code is refused; or that the allocator is out of memory.
pub fn step(
    alloc: Global,
    binding: &Binding,
    text: &[u8],
    task: Option<&str>,
    scans: u32,
    every: u32,
) -> Result<Stepped, Stop>
    ensures made { IfOk result (IsStepped binding.now text.now
        (option_map (λ name. name.now) task.entry) scans every) }
    ensures stop { IfErr result (IsStopOrMemory (IsStepStop binding.now text.now
        (option_map (λ name. name.now) task.entry))) }
    // A task of a text has at most one answer, but for out of memory.
    ensures one { (name : Option (List ℕ)) (a b : Result Run Stop)
        → IsStep binding.now text.now name scans every a
        → IsStep binding.now text.now name scans every b → a ≡ b }
{
    let (setup, number) = find_task(alloc, binding, text, task)?;
    runs_are_as_meant();
    let made = run(alloc, &setup, number, scans, every)?;
    Ok(Stepped::new(setup, number, made))
}

/// Scans of a task by its code, the first from the initial values of its variables, but TRUE at an
/// event task's trigger, and from block instances before their first call.
fn run(
    alloc: Global,
    setup: &Setup,
    task: usize,
    scans: u32,
    every: u32,
) -> Result<Scans, AllocError>
    requires { task < length setup.now.plan.tasks }
    ensures made { IfOk result (λ made. AreScansOf setup.now task scans every made.each.items
        made.left.lasting) }
    ensures typed { IfSome (slice_get setup.now.plan.tasks task)
        (λ t. AreOf (first_values t) (types_of t)) }
{
    let of_task = setup.plan().task(task);
    let first = of_task.first_values(alloc)?;
    scans::make(alloc, setup.code(task), &first, scans, every)
}

/// The number of the task that is meant: the first of the name, or without a name the only one.
fn meant_task(plan: &Plan, name: Option<&str>) -> Option<usize>
    ensures { MatchOption result (NoneIsMeant plan.now (option_map (λ name. name.now) name.entry))
        (IsMeantTask plan.now (option_map (λ name. name.now) name.entry)) }
{
    match name {
        Some(name) => task_number(plan, name),
        None => only_task(plan),
    }
}

/// The number of the plan's task, where it has one alone.
fn only_task(plan: &Plan) -> Option<usize>
    ensures { MatchOption result (NoneIsMeant plan.now None) (IsMeantTask plan.now None) }
{
    if plan.tasks() == 1 { Some(0) } else { None }
}

/// The number of the task of this name, without regard to letter case.
fn task_number(plan: &Plan, name: &str) -> Option<usize>
    ensures { MatchOption result (NoneIsCalled plan.now name.now)
        (IsFirstCalled plan.now name.now) }
{
    for task in 0..plan.tasks() {
        if plan.task_name(task).eq_ignore_ascii_case(name) {
            return Some(task);
        }
    }
    None
}
