//! The process image.

use crate::external::External;
use crate::index::index_of;
use crate::overriding::{Override, put_overrides};
use crate::row_writes::give;
use crate::scan_writes::store;
use crate::slots::{StoredSlot, TaskSlot};
use crate::snapshot::Snapshot;
use crate::task::TaskImage;
use crate::task_row::{TaskRow, rows_of};
use ilblocks::BlockState;
use ilcells::ValueRow;
use iltypes::{IlType, Value};
use std::alloc::{AllocError, Global};
use std::marker::Model;

/// A value for each global variable of a plant, and for each task the values of its own variables
/// and its block instances. Each value is in its variable's type. Each task has a row that is kept
/// ready: in each slot is the value that gathering would give. The index has the slots of each
/// global variable.
pub struct Image {
    types: Vec<IlType>,
    globals: Vec<Value>,
    tasks: Vec<TaskRow>,
    index: Vec<Vec<TaskSlot>>,
}

/// Written out, so that it is proved here alone.
impl Drop for Image {
    fn drop(self) {
        let Self {
            types: _,
            globals: _,
            tasks: _,
            index: _,
        } = self;
    }
}

impl Model for Image {
    ghost use Rattle.ilmachine.specs.Images.{ProcessImage};
    ghost use Rattle.ilmachine.specs.TaskRows.{shown_image};
    ghost use Rattle.ilmachine.specs.RowSteps.{IsKept, lists_of};

    ghost Value = { ProcessImage };

    ghost view = { λ i. shown_image i.types.items i.globals.items i.tasks.items };

    ghost invariant = { λ i. IsKept i.types.items i.globals.items i.tasks.items
        (lists_of (λ slots. slots.items) i.index.items) };
}

impl Image {
    ghost use Rattle.std.specs.Prelude.{◌≡◌, ◌≢◌, ℕ, ◌<◌, All, IfOk, IfSome, Some, length};
    ghost use Rattle.std.specs.Prelude.{slice_get};
    ghost use Rattle.std.specs.Option.{IsSomeAnd, option_and_then, option_map};
    ghost use Rattle.iltypes.specs.Values.{AreOf};
    ghost use Rattle.ilblocks.specs.Stores.{Lasting};
    ghost use Rattle.ilmachine.specs.Images.{ProcessImage, ImageVariable, IsImage, IsTaskImage};
    ghost use Rattle.ilmachine.specs.Images.{image_of, layout_of, value_of, verified_of, blocks_of};
    ghost use Rattle.ilmachine.specs.Images.{variable_in, written_in, stored_slots, value_under};
    ghost use Rattle.ilmachine.specs.Images.{Global as GlobalVariable};
    ghost use Rattle.ilmachine.specs.Snapshots.{ScanStart, IsLastingOf, MayHave};

    /// The image with these global variables, each with a value of its type, and these tasks.
    pub fn new(
        alloc: Global,
        types: Vec<IlType>,
        globals: Vec<Value>,
        tasks: &[TaskImage],
    ) -> Result<Image, AllocError>
        requires { IsImage (image_of types.items globals.items tasks.now) }
        ensures { IfOk result (λ image.
            image ≡ image_of types.items globals.items tasks.now) }
    {
        let tasks = rows_of(alloc, tasks, &globals)?;
        let index = index_of(alloc, globals.len(), &tasks)?;
        Ok(Image {
            types,
            globals,
            tasks,
            index,
        })
    }

    /// The value of a global variable.
    pub fn value(&self, global: usize) -> Value
        requires { global < length self.now.globals }
        ensures value { value_of self.now (GlobalVariable global) ≡ Some result }
        ensures in_type { MayHave self.now.types global result }
    {
        self.globals[global]
    }

    /// The values of the global variables.
    pub fn values(&self) -> &[Value]
        ensures value { result.now ≡ self.now.globals }
        ensures in_types { AreOf self.now.globals self.now.types }
    {
        &self.globals
    }

    /// The types of the global variables.
    pub fn types(&self) -> &[IlType]
        ensures value { result.now ≡ self.now.types }
    {
        &self.types
    }

    /// The global variables in the first slots of a task's code.
    pub fn externals(&self, task: usize) -> &[External]
        requires { task < length self.now.tasks }
        ensures value { option_map (λ t. t.layout.externals) (slice_get self.now.tasks task)
            ≡ Some result.now }
        ensures image { IsImage self.now }
        ensures own { IfSome (slice_get self.now.tasks task) IsTaskImage }
    {
        let named = &self.tasks[task];
        let _typed = named.row();
        named.externals()
    }

    /// The slots from which a scan of a task stores to global variables, so that who goes over
    /// these need not go over all that the task names.
    pub fn stores(&self, task: usize) -> &[StoredSlot]
        requires { task < length self.now.tasks }
        ensures value { option_map (λ t. stored_slots t.layout.externals)
            (slice_get self.now.tasks task) ≡ Some result.now }
        ensures image { IsImage self.now }
    {
        self.tasks[task].stores()
    }

    /// What a scan of a task starts from at this moment, in milliseconds: its code, under each slot
    /// the value of the slot's variable, and its block instances.
    pub fn take(&self, task: usize, moment: u64) -> Result<Snapshot, AllocError>
        requires { task < length self.now.tasks }
        ensures verified { IfOk result (λ snapshot.
            verified_of (layout_of self.now) task ≡ Some snapshot.verified) }
        ensures values { IfOk result (λ snapshot. (slot : ℕ) →
            slice_get snapshot.lasting.slots slot
            ≡ option_and_then (value_of self.now) (variable_in (layout_of self.now) task slot)) }
        ensures blocks { IfOk result (λ snapshot.
            blocks_of self.now task ≡ Some snapshot.lasting.blocks) }
        ensures moment { IfOk result (λ snapshot. snapshot.moment ≡ moment) }
    {
        let taken = &self.tasks[task];
        taken.begin(taken.row().copy()?, moment)
    }

    /// As [`Image::take`], under overrides: in the slot of a global variable that they name is the
    /// value that the last override of it gives. An event task is taken with its trigger TRUE, and
    /// with the information and count of the event that activated it.
    pub fn take_with(
        &self,
        task: usize,
        moment: u64,
        overrides: &[Override],
    ) -> Result<Snapshot, AllocError>
        requires task { task < length self.now.tasks }
        requires in_types { All (λ given. MayHave self.now.types given.global given.value)
            overrides.now }
        ensures verified { IfOk result (λ snapshot.
            verified_of (layout_of self.now) task ≡ Some snapshot.verified) }
        ensures values { IfOk result (λ snapshot. (slot : ℕ) →
            slice_get snapshot.lasting.slots slot
            ≡ option_and_then (value_under overrides.now self.now)
            (variable_in (layout_of self.now) task slot)) }
        ensures blocks { IfOk result (λ snapshot.
            blocks_of self.now task ≡ Some snapshot.lasting.blocks) }
        ensures moment { IfOk result (λ snapshot. snapshot.moment ≡ moment) }
    {
        let taken = &self.tasks[task];
        let mut row = taken.row().copy()?;
        put_overrides(&mut row, &self.index, task, overrides);
        taken.begin(row, moment)
    }

    /// Writes what a scan of a task left, a value in its type for each slot of its programs and
    /// block instances of its kinds: the globals that the task stores, its own variables and its
    /// block instances. It takes no memory.
    pub fn commit(&mut self, task: usize, values: &ValueRow, blocks: Vec<BlockState>)
        requires { IsSomeAnd (verified_of (layout_of self.old) task) (λ verified.
            IsLastingOf verified.code (record { slots = values.now; blocks = blocks.items })) }
        ensures layout { layout_of self.new ≡ layout_of self.old }
        ensures written { (slot : ℕ) (variable : ImageVariable)
            → written_in (layout_of self.old) task slot ≡ Some variable
            → value_of self.new variable ≡ slice_get values.now slot }
        ensures kept { (variable : ImageVariable)
            → ((slot : ℕ) → written_in (layout_of self.old) task slot ≢ Some variable)
            → value_of self.new variable ≡ value_of self.old variable }
        ensures blocks { blocks_of self.new task ≡ Some blocks.items }
        ensures others { (other : ℕ) → other ≢ task
            → blocks_of self.new other ≡ blocks_of self.old other }
    {
        store(
            &mut self.globals,
            &mut self.tasks,
            &self.index,
            task,
            values,
        );
        self.tasks[task].keep(values, blocks);
    }

    /// Gives a global variable a value of its type. It takes no memory.
    pub fn set_input(&mut self, global: usize, value: Value)
        requires { MayHave self.old.types global value }
        ensures layout { layout_of self.new ≡ layout_of self.old }
        ensures written { value_of self.new (GlobalVariable global) ≡ Some value }
        ensures kept { (variable : ImageVariable) → variable ≢ GlobalVariable global
            → value_of self.new variable ≡ value_of self.old variable }
        ensures blocks { (task : ℕ) → blocks_of self.new task ≡ blocks_of self.old task }
    {
        give(
            &mut self.globals,
            &mut self.tasks,
            &self.index,
            global,
            value,
        );
    }
}
