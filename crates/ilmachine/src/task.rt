//! Tasks in the process image.

ghost use Rattle.std.specs.Prelude.{◌≡◌, ◌<◌, All, IfOk, length, map};
ghost use Rattle.ilmachine.specs.ImageSteps.{global_value};

use crate::external::External;
use crate::prepared::PreparedCode;
use ilblocks::BlockState;
use iltypes::Value;
use ilverify::Verified;
use std::alloc::{AllocError, Global};
use std::marker::Model;
use std::sync::Arc;

/// A task in the process image: its verified code, the global variables in the code's first slots,
/// the values of the task's own variables, which the programs' other slots are, and its block
/// instances.
#[derive(Drop)]
pub struct TaskImage {
    prepared: Arc<PreparedCode, Global>,
    externals: Vec<External>,
    values: Vec<Value>,
    blocks: Vec<BlockState>,
}

impl Model for TaskImage {
    ghost use Rattle.std.specs.Arc.{arc_value};
    ghost use Rattle.ilmachine.specs.Images.{TaskImage, IsTaskImage, first_task};

    ghost Value = { TaskImage };

    ghost view = { λ t. first_task (arc_value t.prepared) t.externals.items t.values.items
        t.blocks.items };

    ghost invariant = { λ t. IsTaskImage (first_task (arc_value t.prepared) t.externals.items
        t.values.items t.blocks.items) };
}

impl TaskImage {
    ghost use Rattle.std.specs.Prelude.{◌≡◌, ◌<◌, All, IfOk, drop, length};
    ghost use Rattle.std.specs.List.{AllZip};
    ghost use Rattle.std.specs.Arc.{arc_value};
    ghost use Rattle.iltypes.specs.Values.{AreOf};
    ghost use Rattle.ilblocks.specs.Calls.{IsBlockOf};
    ghost use Rattle.ilverify.specs.Listings.{lasting_types};
    ghost use Rattle.ilmachine.specs.Images.{TaskLayout, TaskImage, own_types, first_task};
    ghost use Rattle.ilmachine.specs.ImageSteps.{slot_values};

    /// A task of this code, whose first slots are these global variables, with these values of its
    /// own variables, one in its type for each slot of the programs that is left, and with these
    /// block instances, one of its kind for each of the code's.
    pub fn new(
        alloc: Global,
        verified: Arc<Verified, Global>,
        externals: Vec<External>,
        values: Vec<Value>,
        blocks: Vec<BlockState>,
    ) -> Result<TaskImage, AllocError>
        requires values { AreOf values.items
            (drop (length externals.items) (lasting_types (arc_value verified).code)) }
        requires blocks { AllZip (IsBlockOf (arc_value verified).code.buses) blocks.items
            (arc_value verified).code.kinds }
        ensures { IfOk result (λ made.
            made ≡ first_task (arc_value verified) externals.items values.items blocks.items) }
    {
        let prepared = PreparedCode::shared(alloc, verified)?;
        Ok(TaskImage {
            prepared,
            externals,
            values,
            blocks,
        })
    }

    /// The verified code, prepared for the machine.
    pub(crate) fn prepared_code(&self) -> &Arc<PreparedCode, Global>
        ensures value { arc_value result.now ≡ self.now.layout.verified }
    {
        &self.prepared
    }

    /// The global variables in the first slots of the code.
    pub fn externals(&self) -> &[External]
        ensures value { result.now ≡ self.now.layout.externals }
    {
        &self.externals
    }

    /// The values of the task's own variables.
    pub fn values(&self) -> &[Value]
        ensures value { result.now ≡ self.now.own.slots }
        ensures in_types { AreOf self.now.own.slots (own_types self.now.layout) }
    {
        &self.values
    }

    /// What each block instance of the task keeps.
    pub fn blocks(&self) -> &[BlockState]
        ensures value { result.now ≡ self.now.own.blocks }
        ensures in_types { AllZip (IsBlockOf self.now.layout.verified.code.buses)
            self.now.own.blocks self.now.layout.verified.code.kinds }
    {
        &self.blocks
    }

    /// The values of the code's slots, of these of the global variables.
    pub(crate) fn slot_values(
        &self,
        alloc: Global,
        globals: &[Value],
    ) -> Result<Vec<Value>, AllocError>
        requires { All (λ external. external.global < length globals.now)
            self.now.layout.externals }
        ensures { IfOk result (λ values. values.items ≡ slot_values globals.now self.now) }
    {
        let mut values = global_values(alloc, &self.externals, globals)?;
        values.extend_from_slice(&self.values)?;
        Ok(values)
    }

    /// A copy of the block instances.
    pub(crate) fn copy_blocks(&self) -> Result<Vec<BlockState>, AllocError>
        ensures { IfOk result (λ blocks. blocks.items ≡ self.now.own.blocks) }
    {
        self.blocks.clone()
    }
}

/// The values of these global variables.
fn global_values(
    alloc: Global,
    externals: &[External],
    globals: &[Value],
) -> Result<Vec<Value>, AllocError>
    requires { All (λ external. external.global < length globals.now) externals.now }
    ensures { IfOk result (λ values.
        values.items ≡ map (global_value globals.now) externals.now) }
{
    let mut values = Vec::new(alloc);
    for external in externals {
        values.push(globals[external.global])?;
    }
    Ok(values)
}
