//! Tasks.

ghost use Rattle.std.specs.Prelude.{◌≡◌, IfOk, length, map};
ghost use Rattle.ilblocks.specs.Stores.{blocks_at_first};
ghost use Rattle.ilplan.specs.Beginnings.{each_with, slot_with};

use crate::activation::Activation;
use crate::constants::Constants;
use crate::instance::{FunctionBlock, ProgramInstance};
use crate::slot::{Slot, SlotOwner};
use crate::state::TaskState;
use crate::stored::stored_slots;
use ilblocks::BlockState;
use iltypes::Value;
use std::alloc::{AllocError, Global};
use std::marker::Model;

/// A task: its instances, which run in order, their variables and its constants, which are those of
/// its instances and of the functions that it uses.
pub struct Task {
    name: String,
    activation: Activation,
    priority: u16,
    slots: Vec<Slot>,
    blocks: Vec<FunctionBlock>,
    /// What each block instance keeps before the first scan.
    states: Vec<BlockState>,
    constants: Constants,
    instances: Vec<ProgramInstance>,
    /// For each slot whether a line stores to it.
    stored: Vec<bool>,
}

/// Written out, so that it is proved here alone.
impl Drop for Task {
    fn drop(self) {
        let Self {
            name: _,
            activation: _,
            priority: _,
            slots: _,
            blocks: _,
            states: _,
            constants: _,
            instances: _,
            stored: _,
        } = self;
    }
}

impl Model for Task {
    ghost use Rattle.std.specs.Prelude.{string_bytes, length};
    ghost use Rattle.std.specs.Coded.{codes};
    ghost use Rattle.ilplan.specs.contracts.instance.ProgramInstance as instance;
    ghost use Rattle.ilplan.specs.Plans.{PlannedTask, task_in};
    ghost use Rattle.ilplan.specs.StoreSteps.{AreStored};

    ghost Value = { PlannedTask };

    ghost coded = { Prim.hlevel (codes, instance.the_row.coded) };

    ghost view = { λ t. task_in (string_bytes t.name) t.activation t.priority t.slots.items
        t.blocks.items t.states.items t.constants t.instances.items };

    ghost invariant = { λ t. AreStored t.instances.items (length t.slots.items) t.stored.items };
}

impl Task {
    ghost use Rattle.std.specs.Prelude.{◌≡◌, ◌<◌, length, string_bytes, IfOk};
    ghost use Rattle.ilplan.specs.Plans.{PlannedTask, task_of, stores};
    ghost use Rattle.ilplan.specs.Plans.{first_value, first_values};
    ghost use Rattle.ilplan.specs.Beginnings.{task_with};

    /// The task of these parts, with each block instance as it is before its first call. That they
    /// keep the limits is asked of a plan, which has the functions.
    ///
    /// # Errors
    ///
    /// The allocator is out of memory.
    pub fn new(
        alloc: Global,
        name: String,
        activation: Activation,
        priority: u16,
        slots: Vec<Slot>,
        blocks: Vec<FunctionBlock>,
        constants: Constants,
        instances: Vec<ProgramInstance>,
    ) -> Result<Task, AllocError>
        ensures { IfOk result (λ task. task ≡ task_of (string_bytes name) activation priority
            slots.items blocks.items constants instances.items) }
    {
        let stored = stored_slots(alloc, slots.len(), &instances)?;
        let states = states_at_first(alloc, &blocks)?;
        Ok(Task {
            name,
            activation,
            priority,
            slots,
            blocks,
            states,
            constants,
            instances,
            stored,
        })
    }

    /// The name, as declared.
    pub fn name(&self) -> &str
        ensures value { result.now ≡ self.now.name }
    {
        self.name.as_str()
    }

    /// What starts the task.
    pub fn activation(&self) -> Activation
        ensures value { result ≡ self.now.activation }
    {
        self.activation
    }

    /// Its priority, of which 0 is the first.
    pub fn priority(&self) -> u16
        ensures value { result ≡ self.now.priority }
    {
        self.priority
    }

    /// Its variables: global ones in the order of their numbers, then those of its instances in
    /// declared order.
    pub fn slots(&self) -> &[Slot]
        ensures value { result.now ≡ self.now.slots }
    {
        &self.slots
    }

    /// Whether some line of the task, reached or not, stores to the slot of this number, sets it or
    /// resets it.
    pub fn stores(&self, slot: usize) -> bool
        requires { slot < length self.now.slots }
        ensures value { result ≡ stores self.now slot }
    {
        self.stored[slot]
    }

    /// What a scan by hand begins from: the initial value of each slot, but TRUE at the trigger of
    /// an event task.
    ///
    /// # Errors
    ///
    /// The allocator is out of memory.
    pub fn first_values(&self, alloc: Global) -> Result<Vec<Value>, AllocError>
        ensures { IfOk result (λ values. values.items ≡ first_values self.now) }
    {
        let mut values = Vec::new(alloc);
        for slot in &self.slots {
            values.push(self.first_value(slot))?;
        }
        Ok(values)
    }

    /// What a scan by hand begins from in a slot.
    fn first_value(&self, slot: &Slot) -> Value
        ensures { result ≡ first_value self.now slot.now }
    {
        match (self.activation, slot.variable) {
            (Activation::Event { trigger }, SlotOwner::Global(number)) if trigger == number => {
                Value::Bool(true)
            }
            _ => slot.initial,
        }
    }

    /// Lets its variables begin with these values, and its block instances as these, one for each.
    pub(crate) fn begin_with(&mut self, firsts: &TaskState)
        requires values { length firsts.now.slots ≡ length self.old.slots }
        requires blocks { length firsts.now.blocks ≡ length self.old.states }
        ensures { self.new ≡ task_with self.old firsts.now }
    {
        begin_slots(&mut self.slots, firsts.values());
        begin_blocks(&mut self.states, firsts.blocks());
    }

    /// The block instances of its program instances, in declared order.
    pub fn blocks(&self) -> &[FunctionBlock]
        ensures value { result.now ≡ self.now.blocks }
    {
        &self.blocks
    }

    /// What each block instance keeps before the first scan.
    pub fn states(&self) -> &[BlockState]
        ensures value { result.now ≡ self.now.states }
    {
        &self.states
    }

    /// The different constants of its lines and of the functions that it uses, in order of first
    /// use.
    pub fn constants(&self) -> &Constants
        ensures value { result.now ≡ self.now.constants }
    {
        &self.constants
    }

    /// The program instances, in declared order.
    pub fn instances(&self) -> &[ProgramInstance]
        ensures value { result.now ≡ self.now.instances }
    {
        &self.instances
    }
}

/// Lets slots begin with these values, one for each.
fn begin_slots(slots: &mut Vec<Slot>, values: &[Value])
    requires { length values.now ≡ length slots.old.items }
    ensures { slots.new.items ≡ each_with slot_with slots.old.items values.now }
{
    for i in 0..slots.len() {
        let slot = &mut slots[i];
        slot.initial = values[i];
    }
}

/// Lets block instances begin as these, one for each.
fn begin_blocks(states: &mut Vec<BlockState>, firsts: &[BlockState])
    requires { length firsts.now ≡ length states.old.items }
    ensures { states.new.items ≡ firsts.now }
{
    for i in 0..states.len() {
        states[i] = copy_of(&firsts[i]);
    }
}

/// What a block instance keeps, once more.
fn copy_of(state: &BlockState) -> BlockState
    ensures { result ≡ state.now }
{
    state.clone().unwrap()
}

/// What these block instances keep before their first call.
fn states_at_first(alloc: Global, blocks: &[FunctionBlock]) -> Result<Vec<BlockState>, AllocError>
    ensures { IfOk result (λ states.
        states.items ≡ blocks_at_first (map (λ b. b.kind) blocks.now)) }
{
    let mut states = Vec::new(alloc);
    for block in blocks {
        states.push(BlockState::at_first(block.kind))?;
    }
    Ok(states)
}
