//! Which global variables tasks read.

ghost use Rattle.std.specs.Prelude.{◌≡◌, ◌++◌, IfOk, OnOk, flat_map, length, replicate, false};
ghost use Rattle.ilsource.specs.Uses.{uses_in};
ghost use Rattle.ilnotes.specs.Planned.{uses_of_task};
ghost use Rattle.ilnotes.specs.ReadSteps.{AreReads, Marks, slot_read};

use ilplan::{Place, Plan, SlotOwner, Task};
use ilsource::{Line, Operand, Purpose, Use};
use std::alloc::{AllocError, Global};
use std::marker::Model;

/// A plan, with what each of its tasks reads.
#[derive(Drop)]
pub struct Reads<'p> {
    plan: &'p Plan,
    tasks: Vec<TaskReads<'p>>,
}

impl<'p> Model for Reads<'p> {
    ghost use Rattle.std.specs.Prelude.{◌≡◌};
    ghost use Rattle.std.specs.Coded.{codes};
    ghost use Rattle.ilplan.specs.Plans.{Planned};
    ghost use Rattle.ilplan.specs.contracts.plan.Plan as inner;

    ghost Value = { Planned };

    ghost coded = { Prim.hlevel (codes, inner.the_row.coded) };

    ghost view = { λ r. r.plan.now };

    ghost invariant = { λ r. r.tasks.items ≡ r.plan.now.tasks };
}

impl<'p> Reads<'p> {
    ghost use Rattle.std.specs.Prelude.{◌≡◌, ◌↔◌, IfOk, IsTrue};
    ghost use Rattle.ilnotes.specs.Planned.{IsRead};

    /// A plan, with what each of its tasks reads.
    ///
    /// # Errors
    ///
    /// The allocator is out of memory.
    pub fn of(alloc: Global, plan: &'p Plan) -> Result<Reads<'p>, AllocError>
        ensures { IfOk result (λ reads. reads ≡ plan.now) }
    {
        let tasks = reads_of_tasks(alloc, plan)?;
        Ok(Reads { plan, tasks })
    }

    /// Whether some line of some task, reached or not, reads the global variable of this number.
    pub fn is_read(&self, number: usize) -> bool
        ensures { IsTrue result ↔ IsRead self.now number }
    {
        for task in 0..self.tasks.len() {
            if self.tasks[task].is_read(number) {
                return true;
            }
        }
        false
    }
}

/// What each task of a plan reads.
fn reads_of_tasks<'p>(alloc: Global, plan: &'p Plan) -> Result<Vec<TaskReads<'p>>, AllocError>
    ensures { IfOk result (λ tasks. tasks.items ≡ plan.now.tasks) }
{
    let mut tasks = Vec::with_capacity(alloc, plan.tasks())?;
    for task in 0..plan.tasks() {
        tasks.push(TaskReads::of(alloc, plan.task(task))?)?;
    }
    Ok(tasks)
}

/// A task, and for each of its slots whether a line reads it.
#[derive(Drop)]
struct TaskReads<'p> {
    task: &'p Task,
    read: Vec<bool>,
}

impl<'p> Model for TaskReads<'p> {
    ghost use Rattle.std.specs.Prelude.{length};
    ghost use Rattle.std.specs.Coded.{codes};
    ghost use Rattle.ilplan.specs.Plans.{PlannedTask};
    ghost use Rattle.ilplan.specs.contracts.task.Task as inner;
    ghost use Rattle.ilnotes.specs.Planned.{uses_of_task};
    ghost use Rattle.ilnotes.specs.ReadSteps.{AreReads};

    ghost Value = { PlannedTask };

    ghost coded = { Prim.hlevel (codes, inner.the_row.coded) };

    ghost view = { λ t. t.task.now };

    ghost invariant = { λ t. AreReads (uses_of_task t.task.now) (length t.task.now.slots)
        t.read.items };
}

impl<'p> TaskReads<'p> {
    ghost use Rattle.std.specs.Prelude.{◌≡◌, ◌↔◌, ◌<◌, ℕ, IfOk, IsTrue, length};
    ghost use Rattle.ilnotes.specs.Planned.{ReadsInSlot};

    /// The task, with what its lines read.
    fn of(alloc: Global, task: &'p Task) -> Result<TaskReads<'p>, AllocError>
        ensures { IfOk result (λ reads. reads ≡ task.now) }
    {
        let read = read_slots(alloc, task)?;
        Ok(TaskReads { task, read })
    }

    /// Whether some line of the task reads the global variable of this number.
    fn is_read(&self, number: usize) -> bool
        ensures { IsTrue result ↔ ((slot : ℕ) × ReadsInSlot number self.now slot) }
    {
        for slot in 0..self.task.slots().len() {
            if self.is_read_in(number, slot) {
                return true;
            }
        }
        false
    }

    /// Whether a slot is the global variable of this number, and some line of the task reads it.
    fn is_read_in(&self, number: usize, slot: usize) -> bool
        requires { slot < length self.now.slots }
        ensures { IsTrue result ↔ ReadsInSlot number self.now slot }
    {
        match self.task.slots()[slot].variable {
            SlotOwner::Global(other) => other == number && self.read[slot],
            SlotOwner::Own { .. } => false,
        }
    }
}

/// For each slot of a task whether a line reads it.
fn read_slots(alloc: Global, task: &Task) -> Result<Vec<bool>, AllocError>
    ensures { IfOk result (λ read. AreReads (uses_of_task task.now) (length task.now.slots)
        read.items) }
{
    let uses = uses_of_task(alloc, task)?;
    let mut read = vec![in alloc; false; task.slots().len()]?;
    mark_all(&mut read, &uses);
    Ok(read)
}

/// Marks the slots that uses read, of which none is marked.
fn mark_all(read: &mut [bool], uses: &[Use<Place>])
    requires { read.old ≡ replicate (length read.old) false }
    ensures { AreReads uses.now (length read.old) read.new }
{
    for used in uses {
        mark(read, used);
    }
}

/// Marks the slot that a use reads, where it reads one.
fn mark(read: &mut [bool], used: &Use<Place>)
    ensures { Marks used.now read.old read.new }
{
    let Some(slot) = slot_read(used) else {
        return;
    };
    if slot < read.len() {
        read[slot] = true;
    }
}

/// The slot that a use reads.
fn slot_read(used: &Use<Place>) -> Option<usize>
    ensures { result ≡ slot_read used.now.purpose used.now.operand }
{
    match (used.purpose, used.operand) {
        (Purpose::Read, Operand::Name(Place::Slot(slot))) => Some(slot),
        _ => None,
    }
}

/// All uses of the lines of a task.
fn uses_of_task(alloc: Global, task: &Task) -> Result<Vec<Use<Place>>, AllocError>
    ensures { IfOk result (λ uses. uses.items ≡ uses_of_task task.now) }
{
    let mut uses = Vec::new(alloc);
    for instance in task.instances() {
        push_lines(&mut uses, instance.lines())?;
    }
    Ok(uses)
}

/// Adds the uses of lines.
fn push_lines(uses: &mut Vec<Use<Place>>, lines: &[Line<Place, usize>]) -> Result<(), AllocError>
    ensures { OnOk result (uses.new.items ≡ uses.old.items ++ flat_map uses_in lines.now) }
{
    for line in lines {
        line.push_uses(uses)?;
    }
    Ok(())
}
