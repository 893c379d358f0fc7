//! Tasks with rows that are kept ready.

ghost use Rattle.std.specs.Prelude.{◌≡◌, All, IfOk, map};
ghost use Rattle.ilmachine.specs.ImageSteps.{HasGlobals};
ghost use Rattle.ilmachine.specs.TaskRows.{ready_task};
ghost use Rattle.ilmachine.specs.Images.{stored_slots};

use crate::code_rows::row_of;
use crate::external::External;
use crate::prepared::PreparedCode;
use crate::slots::StoredSlot;
use crate::snapshot::Snapshot;
use crate::task::TaskImage;
use ilblocks::BlockState;
use ilcells::ValueRow;
use iltypes::Value;
use std::alloc::{AllocError, Global};
use std::marker::Model;
use std::sync::Arc;

/// A task with its row: the value of each slot of its programs, of which the first are global
/// variables. From the slots of `stores` a scan stores to those.
#[derive(Drop)]
pub(crate) struct TaskRow {
    prepared: Arc<PreparedCode, Global>,
    externals: Vec<External>,
    stores: Vec<StoredSlot>,
    row: ValueRow,
    blocks: Vec<BlockState>,
}

impl Model for TaskRow {
    ghost use Rattle.std.specs.Prelude.{◌≡◌};
    ghost use Rattle.std.specs.Arc.{arc_value};
    ghost use Rattle.ilmachine.specs.TaskRows.{TaskRow, IsTaskRow, task_row_of};
    ghost use Rattle.ilmachine.specs.Images.{stored_slots};

    ghost Value = { TaskRow };

    ghost view = { λ t. task_row_of (arc_value t.prepared) t.externals.items t.row t.blocks.items };

    ghost invariant = { λ t.
        IsTaskRow (task_row_of (arc_value t.prepared) t.externals.items t.row t.blocks.items)
        × (t.stores.items ≡ stored_slots t.externals.items) };
}

impl TaskRow {
    ghost use Rattle.std.specs.Prelude.{◌≡◌, ◌≤◌, IfOk, length, slice_set};
    ghost use Rattle.std.specs.List.{AllZip};
    ghost use Rattle.iltypes.specs.Values.{AreOf};
    ghost use Rattle.ilblocks.specs.Calls.{IsBlockOf};
    ghost use Rattle.ilverify.specs.Listings.{lasting_types};
    ghost use Rattle.ilmachine.specs.ImageSteps.{HasGlobals};
    ghost use Rattle.ilmachine.specs.Snapshots.{MayHave, start_of};
    ghost use Rattle.ilmachine.specs.TaskRows.{TaskRow, IsTaskRow, ready_task};
    ghost use Rattle.ilmachine.specs.Images.{stored_slots};
    ghost use Rattle.ilmachine.specs.RowSteps.{kept_task};

    /// The task, ready where the global variables have these values.
    pub(crate) fn of(
        alloc: Global,
        task: &TaskImage,
        globals: &[Value],
    ) -> Result<TaskRow, AllocError>
        requires { HasGlobals task.now.layout globals.now }
        ensures { IfOk result (λ made. made ≡ ready_task globals.now task.now) }
    {
        let _own = task.values();
        let _kinds = task.blocks();
        let values = task.slot_values(alloc, globals)?;
        let prepared = task.prepared_code().clone()?;
        let row = row_of(alloc, prepared.verified_code().code(), &values)?;
        let externals = Vec::from_slice(alloc, task.externals())?;
        let stores = stores_of(alloc, &externals)?;
        let blocks = task.copy_blocks()?;
        Ok(TaskRow {
            prepared,
            externals,
            stores,
            row,
            blocks,
        })
    }

    /// The global variables in the first slots of the code.
    pub(crate) fn externals(&self) -> &[External]
        ensures value { result.now ≡ self.now.layout.externals }
    {
        &self.externals
    }

    /// The slots from which a scan stores to global variables.
    pub(crate) fn stores(&self) -> &[StoredSlot]
        ensures value { result.now ≡ stored_slots self.now.layout.externals }
    {
        &self.stores
    }

    /// The value of each slot.
    pub(crate) fn row(&self) -> &ValueRow
        ensures value { result.now ≡ self.now.row }
        ensures in_types { IsTaskRow self.now }
    {
        &self.row
    }

    /// A copy of the block instances.
    fn copy_blocks(&self) -> Result<Vec<BlockState>, AllocError>
        ensures { IfOk result (λ blocks. blocks.items ≡ self.now.blocks) }
    {
        self.blocks.clone()
    }

    /// What a scan of the task starts from at this moment with these values, one in its type for
    /// each slot of the programs.
    pub(crate) fn begin(&self, row: ValueRow, moment: u64) -> Result<Snapshot, AllocError>
        requires { AreOf row (lasting_types self.now.layout.verified.code) }
        ensures { IfOk result (λ snapshot. snapshot ≡ start_of self.now.layout.verified
            (record { slots = row; blocks = self.now.blocks }) moment) }
    {
        let blocks = self.copy_blocks()?;
        let prepared = self.prepared.clone()?;
        Ok(Snapshot::of(prepared, row, blocks, moment))
    }

    /// Gives a slot another value of its type.
    pub(crate) fn put(&mut self, slot: usize, value: Value)
        requires { MayHave (lasting_types self.old.layout.verified.code) slot value }
        ensures { self.new ≡ record self.old { row = slice_set self.old.row slot value } }
    {
        self.row.set(slot, value);
    }

    /// Keeps what a scan left: of the values of the programs' slots those of the task's own
    /// variables, and the block instances. It takes no memory.
    pub(crate) fn keep(&mut self, row: &ValueRow, blocks: Vec<BlockState>)
        requires values { AreOf row.now (lasting_types self.old.layout.verified.code) }
        requires externals { length self.old.layout.externals ≤ length row.now }
        requires blocks { AllZip (IsBlockOf self.old.layout.verified.code.buses) blocks.items
            self.old.layout.verified.code.kinds }
        ensures { self.new ≡ kept_task self.old row.now blocks.items }
    {
        self.row.copy_end(row, self.externals.len());
        self.blocks = blocks;
    }
}

/// The tasks, ready where the global variables have these values.
pub(crate) fn rows_of(
    alloc: Global,
    tasks: &[TaskImage],
    globals: &[Value],
) -> Result<Vec<TaskRow>, AllocError>
    requires { All (λ task. HasGlobals task.layout globals.now) tasks.now }
    ensures { IfOk result (λ rows. rows.items ≡ map (ready_task globals.now) tasks.now) }
{
    let mut rows = Vec::with_capacity(alloc, tasks.len())?;
    for task in tasks {
        rows.push(TaskRow::of(alloc, task, globals)?)?;
    }
    Ok(rows)
}

/// The slots of these global variables from which a scan stores to them.
fn stores_of(alloc: Global, externals: &[External]) -> Result<Vec<StoredSlot>, AllocError>
    ensures { IfOk result (λ stores. stores.items ≡ stored_slots externals.now) }
{
    let mut stores = Vec::new(alloc);
    for (slot, external) in externals.iter().enumerate() {
        if external.stored {
            stores.push(StoredSlot {
                slot,
                global: external.global,
            })?;
        }
    }
    Ok(stores)
}
