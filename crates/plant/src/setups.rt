//! What tasks are declared with.

ghost use Rattle.std.specs.Prelude.{◌≡◌, ◌<◌, All, find, length, IfOk, option_map};
ghost use Rattle.plantevents.specs.Plants.{Plant as Made, activator, trigger_of};
ghost use Rattle.readytasks.specs.TaskSets.{AreSetups, HasInterval};
ghost use Rattle.plant.specs.InputSteps.{is_bound_at};
ghost use Rattle.plant.specs.TakingSteps.{trigger_place};

use crate::first_counts::first_count;
use dalievent::EventSource;
use ilplan::{Activation, Location, Plan};
use plantevents::Activator;
use readytasks::TaskSetup;
use std::alloc::{AllocError, Global};
use wordlines::BoundSource;

/// The source that is bound at this place of a bus.
fn bound_source(sources: &[BoundSource], bus: u8, number: u8) -> Option<EventSource>
    ensures value { result
        ≡ option_map (λ b. b.source) (find (is_bound_at bus number) sources.now) }
{
    let bound = sources
        .iter()
        .find(|bound| bound.bus == bus && bound.number == number)?;
    Some(bound.source)
}

/// What activates a task: the clock, or the messages of its trigger's source, with what their count
/// begins at.
fn activator_of(plan: &Plan, task: usize) -> Option<Activator>
    requires { task < length plan.now.tasks }
    ensures value { (p : Made) → p.plan ≡ plan.now → result ≡ activator p task }
    ensures interval { HasInterval result }
{
    match plan.task(task).activation() {
        Activation::Cyclic { interval } => Some(Activator::Interval {
            milliseconds: interval,
        }),
        Activation::Event { trigger } => match plan.global(trigger).location {
            Some(Location::Trigger { bus, source }) => {
                let first = first_count(plan, bus, source);
                let source = bound_source(plan.sources(), bus, source)?;
                Some(Activator::Messages { bus, source, first })
            }
            _ => None,
        },
    }
}

/// What the tasks of a plan are declared with, in declared order.
pub(crate) fn task_setups(alloc: Global, plan: &Plan) -> Result<Vec<TaskSetup>, AllocError>
    ensures setups { IfOk result (λ setups. (p : Made)
        → p.plan ≡ plan.now → AreSetups p setups.items) }
    ensures intervals { IfOk result (λ setups. All (λ s. HasInterval s.activator) setups.items) }
{
    let mut setups = Vec::new(alloc);
    for task in 0..plan.tasks() {
        setups.push(TaskSetup {
            activator: activator_of(plan, task),
            priority: plan.task(task).priority(),
        })?;
    }
    Ok(setups)
}

/// Where the trigger of a task is located, if an event starts it.
pub(crate) fn trigger_of(plan: &Plan, task: usize) -> Option<Location>
    requires { task < length plan.now.tasks }
    ensures value { (p : Made) → p.plan ≡ plan.now → result ≡ trigger_of p task }
{
    match plan.task(task).activation() {
        Activation::Cyclic { .. } => None,
        Activation::Event { trigger } => plan.global(trigger).location,
    }
}

/// The bus and the number there, where this is the trigger of a source.
pub(crate) fn trigger_place(location: Option<Location>) -> Option<(u8, u8)>
    ensures value { result ≡ trigger_place location }
{
    match location {
        Some(Location::Trigger { bus, source }) => Some((bus, source)),
        _ => None,
    }
}
