//! Plans.

ghost use Rattle.std.specs.Prelude.{◌≡◌, length};
ghost use Rattle.std.specs.List.{AllZip};
ghost use Rattle.ilplan.specs.Beginnings.{each_with, global_with, task_with};
ghost use Rattle.ilplan.specs.BeginningSteps.{FitsTask};

use crate::declared_name::{DeclaredName, SlotName};
use crate::function::UserFunction;
use crate::global::Global;
use crate::slot::SlotOwner;
use crate::state::TaskState;
use crate::task::Task;
use crate::usage::used_functions;
use ilblocks::TaskKind;
use iltypes::Value;
use std::alloc::{AllocError, Global as GlobalAllocator};
use std::marker::Model;
use wordlines::{BoundSource, BusTries, tries_in};

/// What a source program's tasks do, over slots in place of names. It has 1 to
/// [`limits::MOST_BUSES`] buses, and at most [`limits::MOST_TASKS`] tasks. A function calls those
/// before it alone.
pub struct Plan {
    text: Vec<u8>,
    buses: u8,
    sources: Vec<BoundSource>,
    tries: Vec<BusTries>,
    globals: Vec<Global>,
    functions: Vec<UserFunction>,
    tasks: Vec<Task>,
}

/// Written out, so that it is proved here alone.
impl Drop for Plan {
    fn drop(self) {
        let Self {
            text: _,
            buses: _,
            sources: _,
            tries: _,
            globals: _,
            functions: _,
            tasks: _,
        } = self;
    }
}

impl Model for Plan {
    ghost use Rattle.std.specs.Coded.{codes};
    ghost use Rattle.ilplan.specs.contracts.function.UserFunction as function;
    ghost use Rattle.ilplan.specs.contracts.task.Task as task;
    ghost use Rattle.ilplan.specs.Plans.{Planned, IsLawful, plan_of};

    ghost Value = { Planned };

    ghost coded = { Prim.hlevel (codes, function.the_row.coded, task.the_row.coded) };

    ghost view = { λ p. plan_of p.text.items p.buses p.sources.items p.tries.items
        p.globals.items p.functions.items p.tasks.items };

    ghost invariant = { λ p. IsLawful (plan_of p.text.items p.buses p.sources.items
        p.tries.items p.globals.items p.functions.items p.tasks.items) };
}

impl Plan {
    ghost use Rattle.std.specs.Prelude.{◌≡◌, ◌<◌, length, map, slice_get, Some, IfOk, IfSome};
    ghost use Rattle.std.specs.Prelude.{is_some, option_map, option_and_then};
    ghost use Rattle.limits.specs.Limits.{AreTries};
    ghost use Rattle.wordlines.specs.Wirings.{tries_in};
    ghost use Rattle.ilsource.specs.Names.{text_of};
    ghost use Rattle.iltypes.specs.Values.{AreOf};
    ghost use Rattle.ilplan.specs.Plans.{Planned, KeepsLimits, IsLawful, plan_of, slot_at};
    ghost use Rattle.ilplan.specs.Plans.{first_values, task_kind, types_of, used_functions};
    ghost use Rattle.ilplan.specs.Plans.{HasStates, IsTaskOf, IsThere, instance_name, variable_name};
    ghost use Rattle.ilplan.specs.Beginnings.{MayBegin, plan_with};

    /// The plan of these tasks and functions, whose names stand in `text`, on the given number of
    /// buses with these sources of events and these attempts.
    pub fn new(
        text: Vec<u8>,
        buses: u8,
        sources: Vec<BoundSource>,
        tries: Vec<BusTries>,
        globals: Vec<Global>,
        functions: Vec<UserFunction>,
        tasks: Vec<Task>,
    ) -> Plan
        requires { IsLawful (plan_of text.items buses sources.items tries.items globals.items
            functions.items tasks.items) }
        ensures { result ≡ plan_of text.items buses sources.items tries.items globals.items
            functions.items tasks.items }
    {
        Plan {
            text,
            buses,
            sources,
            tries,
            globals,
            functions,
            tasks,
        }
    }

    /// Lets its variables and block instances begin so: each global variable with a value of its
    /// type, and each slot of each task with one of its type, which for the slot of a global
    /// variable is the one of that; and each block instance with what one of its kind keeps.
    pub fn begin_with(&mut self, globals: &[Value], tasks: &[TaskState])
        requires { MayBegin self.old globals.now tasks.now }
        ensures { self.new ≡ plan_with self.old globals.now tasks.now }
    {
        begin_globals(&mut self.globals, globals);
        begin_tasks(&mut self.tasks, tasks);
    }

    /// The text that its names and places are of.
    pub fn text(&self) -> &[u8]
        ensures value { result.now ≡ self.now.text }
    {
        &self.text
    }

    /// The number of buses.
    pub fn buses(&self) -> u8
        ensures value { result ≡ self.now.buses }
        ensures lawful { IsLawful self.now }
    {
        self.buses
    }

    /// The sources of events that are bound, each at a place of a bus.
    pub fn sources(&self) -> &[BoundSource]
        ensures value { result.now ≡ self.now.sources }
    {
        &self.sources
    }

    /// The number of attempts that a bus has for a transaction.
    pub fn tries(&self, bus: u8) -> u8
        ensures value { result ≡ tries_in self.now.tries bus }
        ensures range { AreTries result }
    {
        tries_in(&self.tries, bus)
    }

    /// The functions, in declared order.
    pub fn functions(&self) -> &[UserFunction]
        ensures value { result.now ≡ self.now.functions }
    {
        &self.functions
    }

    /// For each function whether the task of this number uses it: its lines call it, reached or
    /// not, or a function does that it uses.
    ///
    /// # Errors
    ///
    /// The allocator is out of memory.
    pub fn used_functions(
        &self,
        alloc: GlobalAllocator,
        task: usize,
    ) -> Result<Vec<bool>, AllocError>
        requires { task < length self.now.tasks }
        ensures { IfOk result (λ used. IfSome (slice_get self.now.tasks task)
            (λ t. used.items ≡ map is_some (used_functions self.now.functions t))) }
    {
        used_functions(alloc, &self.functions, self.task(task).instances())
    }

    /// How many tasks there are.
    pub fn tasks(&self) -> usize
        ensures value { result ≡ length self.now.tasks }
    {
        self.tasks.len()
    }

    /// The task of this number.
    pub fn task(&self, task: usize) -> &Task
        requires { task < length self.now.tasks }
        ensures value { slice_get self.now.tasks task ≡ Some result.now }
        ensures limits { KeepsLimits self.now.functions result.now }
        ensures declared { IsTaskOf self.now.globals result.now }
        ensures states { HasStates self.now.buses result.now }
        // A trigger is BOOL, so that it may be TRUE.
        ensures typed { AreOf (first_values result.now) (types_of result.now) }
    {
        &self.tasks[task]
    }

    /// The name of a task, as declared.
    pub fn task_name(&self, task: usize) -> &str
        requires { task < length self.now.tasks }
        ensures value { option_map (λ t. t.name) (slice_get self.now.tasks task) ≡ Some result.now }
    {
        self.task(task).name()
    }

    /// Whether the clock or an event starts a task.
    pub fn kind(&self, task: usize) -> TaskKind
        requires { task < length self.now.tasks }
        ensures value { option_map (λ t. task_kind t.activation) (slice_get self.now.tasks task)
            ≡ Some result }
    {
        self.task(task).activation().kind()
    }

    /// The name of a task's slot, as declared.
    pub fn slot_name(&self, task: usize, slot: usize) -> SlotName<'_>
        requires task { task < length self.now.tasks }
        requires slot { IfSome (slice_get self.now.tasks task) (λ t. slot < length t.slots) }
        ensures instance { option_map (λ s. instance_name self.now s.variable)
            (slot_at self.now task slot)
            ≡ Some (option_map (λ name. name.bytes.now) result.instance) }
        ensures variable { option_and_then (λ s. variable_name self.now s.variable)
            (slot_at self.now task slot) ≡ Some result.variable.bytes.now }
    {
        let slot = self.task(task).slots()[slot];
        self.variable_name(slot.variable)
    }

    /// The name of a variable, as declared.
    fn variable_name(&self, variable: SlotOwner) -> SlotName<'_>
        requires { IsThere self.now.globals variable }
        ensures instance { instance_name self.now variable
            ≡ option_map (λ name. name.bytes.now) result.instance }
        ensures variable { variable_name self.now variable ≡ Some result.variable.bytes.now }
    {
        match variable {
            SlotOwner::Global(number) => SlotName {
                instance: None,
                variable: self.global_name(number),
            },
            SlotOwner::Own { instance, name } => SlotName {
                instance: Some(DeclaredName {
                    bytes: instance.text(&self.text),
                }),
                variable: DeclaredName {
                    bytes: name.text(&self.text),
                },
            },
        }
    }

    /// How many global variables there are.
    pub fn globals(&self) -> usize
        ensures value { result ≡ length self.now.globals }
    {
        self.globals.len()
    }

    /// The global variable of this number.
    pub fn global(&self, global: usize) -> &Global
        requires { global < length self.now.globals }
        ensures value { slice_get self.now.globals global ≡ Some result.now }
    {
        &self.globals[global]
    }

    /// The name of a global variable, as declared.
    pub fn global_name(&self, global: usize) -> DeclaredName<'_>
        requires { global < length self.now.globals }
        ensures value { option_map (λ g. text_of self.now.text g.name)
            (slice_get self.now.globals global) ≡ Some result.bytes.now }
    {
        DeclaredName {
            bytes: self.globals[global].name.text(&self.text),
        }
    }
}

/// Lets global variables begin with these values, one for each.
fn begin_globals(globals: &mut Vec<Global>, values: &[Value])
    requires { length values.now ≡ length globals.old.items }
    ensures { globals.new.items ≡ each_with global_with globals.old.items values.now }
{
    for i in 0..globals.len() {
        let global = &mut globals[i];
        global.initial = values[i];
    }
}

/// Lets tasks begin so: for each task a value for each of its slots, and what each of its block
/// instances keeps.
fn begin_tasks(tasks: &mut Vec<Task>, firsts: &[TaskState])
    requires { AllZip FitsTask tasks.old.items firsts.now }
    ensures { tasks.new.items ≡ each_with task_with tasks.old.items firsts.now }
{
    for i in 0..tasks.len() {
        tasks[i].begin_with(&firsts[i]);
    }
}
