//! What scans of a task left.

ghost use Rattle.std.specs.Prelude.{◌≡◌, ◌<◌, length, slice_get, Some, option_map};

use crate::lines::{ScanLine, TaskLine, VariableLine};
use crate::scans::{Scans, Taken};
use gearcmd::{Request, TaskKind};
use ilcompile::Setup;
use ilmachine::Snapshot;
use std::marker::Model;

/// Scans of one task of a setup.
#[derive(Drop)]
pub struct Stepped {
    setup: Setup,
    /// The task's number.
    task: usize,
    each: Vec<Taken>,
    /// What the last scan left.
    left: Snapshot,
}

impl Model for Stepped {
    ghost use Rattle.std.specs.Prelude.{List};
    ghost use Rattle.std.specs.Coded.{codes, code_by};
    ghost use Rattle.ilplan.specs.declared.place.Place.{Place};
    ghost use Rattle.ilsource.specs.declared.nested.Piece.{Piece};
    ghost use Rattle.ilsource.specs.Trees.{pieces_of};
    ghost use Rattle.ilsource.specs.TreeSteps.{tree_of, tree_again};
    ghost use Rattle.textanswers.specs.Stepping.{HasTask, Run, run_of};

    ghost Value = { Run };

    ghost coded = { Prim.hlevel (
      codes,
      code_by (List (Piece Place)) (Prim.hlevel codes) pieces_of tree_of tree_again,
    ) };

    ghost view = { λ s. run_of s.setup s.task s.each.items s.left.lasting };

    ghost invariant = { λ s. HasTask (run_of s.setup s.task s.each.items s.left.lasting) };
}

impl Stepped {
    ghost use Rattle.std.specs.Prelude.{◌≡◌, ◌<◌, length, slice_get, Some, option_map};
    ghost use Rattle.std.specs.Prelude.{option_and_then};
    ghost use Rattle.ilplan.specs.Plans.{instance_name, slot_at, task_kind, variable_name};
    ghost use Rattle.textanswers.specs.Stepping.{HasTask, Run, run_of};

    /// These scans of the task of this number.
    pub fn new(setup: Setup, task: usize, scans: Scans) -> Stepped
        requires { HasTask (run_of setup task scans.each.items scans.left.lasting) }
        ensures { result ≡ run_of setup task scans.each.items scans.left.lasting }
    {
        let Scans { each, left } = scans;
        Stepped {
            setup,
            task,
            each,
            left,
        }
    }

    /// How many scans were made.
    pub fn scans(&self) -> usize
        ensures { result ≡ length self.now.each }
    {
        self.each.len()
    }

    /// How many variables the task has.
    pub fn variables(&self) -> usize
        ensures { result ≡ length self.now.left.slots }
    {
        self.left.slots()
    }

    /// What is printed of the scan of this number, counted from 0.
    pub fn scan_line(&self, number: usize) -> ScanLine
        requires { number < length self.now.each }
        ensures number { result.number ≡ number }
        ensures steps { option_map (λ taken. taken.steps) (slice_get self.now.each number)
            ≡ Some result.steps }
        ensures bound { option_map (λ code. code.bound)
            (slice_get self.now.setup.codes self.now.task) ≡ Some result.bound }
    {
        ScanLine {
            number,
            steps: self.each[number].steps(),
            bound: self.setup.code(self.task).bound(),
        }
    }

    /// What starts the task.
    pub fn task_kind(&self) -> TaskKind
        ensures { option_map (λ t. task_kind t.activation)
            (slice_get self.now.setup.plan.tasks self.now.task) ≡ Some result }
    {
        self.setup.plan().kind(self.task)
    }

    /// The requests of the scan of this number, in order.
    pub fn requests(&self, number: usize) -> &[Request]
        requires { number < length self.now.each }
        ensures { option_map (λ taken. taken.requests) (slice_get self.now.each number)
            ≡ Some result.now }
    {
        self.each[number].requests()
    }

    /// What is printed of the variable in the slot of this number: its name as declared, and its
    /// value after the last scan.
    pub fn variable_line(&self, slot: usize) -> VariableLine<'_>
        requires { slot < length self.now.left.slots }
        ensures instance { option_map (λ s. instance_name self.now.setup.plan s.variable)
            (slot_at self.now.setup.plan self.now.task slot)
            ≡ Some (option_map (λ name. name.bytes.now) result.name.instance) }
        ensures variable { option_and_then (λ s. variable_name self.now.setup.plan s.variable)
            (slot_at self.now.setup.plan self.now.task slot) ≡ Some result.name.variable.bytes.now }
        ensures value { slice_get self.now.left.slots slot ≡ Some result.value }
    {
        VariableLine {
            name: self.setup.plan().slot_name(self.task, slot),
            value: self.left.value(slot),
        }
    }
}

/// What is printed of the task of this number: its name, the words of its code, and the code's
/// bound.
pub fn task_line(setup: &Setup, task: usize) -> TaskLine<'_>
    requires { task < length setup.now.plan.tasks }
    ensures name { option_map (λ t. t.name) (slice_get setup.now.plan.tasks task)
        ≡ Some result.name.now }
    ensures words { option_map (λ code. length code.code.instructions)
        (slice_get setup.now.codes task) ≡ Some result.words }
    ensures bound { option_map (λ code. code.bound) (slice_get setup.now.codes task)
        ≡ Some result.bound }
{
    let code = setup.code(task);
    TaskLine {
        name: setup.plan().task_name(task),
        words: code.code().len(),
        bound: code.bound(),
    }
}
