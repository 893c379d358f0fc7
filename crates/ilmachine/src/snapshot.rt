//! Snapshots.

use crate::code_rows::{first_blocks, row_of};
use crate::prepared::PreparedCode;
use ilblocks::BlockState;
use ilcells::ValueRow;
use iltypes::Value;
use ilverify::Verified;
use std::alloc::{AllocError, Global};
use std::marker::Model;
use std::sync::Arc;

/// What a scan starts from: the verified code of a task, a value for each slot of its programs,
/// what each of its block instances keeps, and a moment in milliseconds. The slots of functions are
/// none of these.
pub struct Snapshot {
    prepared: Arc<PreparedCode, Global>,
    row: ValueRow,
    blocks: Vec<BlockState>,
    moment: u64,
}

/// Written out, so that it is proved here alone.
impl Drop for Snapshot {
    fn drop(self) {
        let Self {
            prepared: _,
            row: _,
            blocks: _,
            moment: _,
        } = self;
    }
}

impl Model for Snapshot {
    ghost use Rattle.std.specs.Arc.{arc_value};
    ghost use Rattle.ilmachine.specs.Snapshots.{ScanStart, start_of, IsLastingOf};

    ghost Value = { ScanStart };

    ghost view = { λ s. start_of (arc_value s.prepared)
        (record { slots = s.row; blocks = s.blocks.items }) s.moment };

    ghost invariant = { λ s. IsLastingOf (arc_value s.prepared).code
        (record { slots = s.row; blocks = s.blocks.items }) };
}

impl Snapshot {
    ghost use Rattle.std.specs.Prelude.{◌≡◌, ◌<◌, IfOk, Some, length, slice_get, slice_set};
    ghost use Rattle.std.specs.List.{AllZip};
    ghost use Rattle.std.specs.Arc.{arc_value};
    ghost use Rattle.iltypes.specs.Values.{AreOf};
    ghost use Rattle.ilblocks.specs.Calls.{IsBlockOf};
    ghost use Rattle.ilblocks.specs.Stores.{Lasting};
    ghost use Rattle.ilverify.specs.Listings.{lasting_types};
    ghost use Rattle.ilmachine.specs.Snapshots.{ScanStart, IsLastingOf, MayHave};
    ghost use Rattle.ilmachine.specs.Snapshots.{start_of, first_start};

    /// The snapshot of these values, one in its type for each slot of the programs, with each block
    /// instance as it is before its first call.
    pub fn new(
        alloc: Global,
        verified: Arc<Verified, Global>,
        values: &[Value],
        moment: u64,
    ) -> Result<Snapshot, AllocError>
        requires { AreOf values.now (lasting_types (arc_value verified).code) }
        ensures { IfOk result (λ snapshot.
            snapshot ≡ first_start (arc_value verified) values.now moment) }
    {
        let row = row_of(alloc, verified.code(), values)?;
        let blocks = first_blocks(alloc, verified.code().kinds())?;
        let prepared = PreparedCode::shared(alloc, verified)?;
        Ok(Snapshot {
            prepared,
            row,
            blocks,
            moment,
        })
    }

    /// The snapshot of these values, one in its type for each slot of the programs, and block
    /// instances of the code's kinds.
    pub(crate) fn of(
        prepared: Arc<PreparedCode, Global>,
        row: ValueRow,
        blocks: Vec<BlockState>,
        moment: u64,
    ) -> Snapshot
        requires values { AreOf row (lasting_types (arc_value prepared).code) }
        requires blocks { AllZip (IsBlockOf (arc_value prepared).code.buses) blocks.items
            (arc_value prepared).code.kinds }
        ensures { result ≡ start_of (arc_value prepared)
            (record { slots = row; blocks = blocks.items }) moment }
    {
        Snapshot {
            prepared,
            row,
            blocks,
            moment,
        }
    }

    /// The snapshot of the same code with these values, one in its type for each slot of the
    /// programs, these block instances, each of its kind, and this moment. It takes no memory.
    pub fn with(self, row: ValueRow, blocks: Vec<BlockState>, moment: u64) -> Snapshot
        requires values { AreOf row (lasting_types self.verified.code) }
        requires blocks { AllZip (IsBlockOf self.verified.code.buses) blocks.items
            self.verified.code.kinds }
        ensures { result ≡ start_of self.verified
            (record { slots = row; blocks = blocks.items }) moment }
    {
        let Self {
            prepared,
            row: _,
            blocks: _,
            moment: _,
        } = self;
        Snapshot {
            prepared,
            row,
            blocks,
            moment,
        }
    }

    /// Copies of the values and of the block instances, for a scan to work on.
    pub fn copy_lasting(&self) -> Result<(ValueRow, Vec<BlockState>), AllocError>
        ensures values { IfOk result (λ copies. copies.0 ≡ self.now.lasting.slots) }
        ensures blocks { IfOk result (λ copies. copies.1.items ≡ self.now.lasting.blocks) }
        ensures in_types { IfOk result (λ copies. IsLastingOf self.now.verified.code
            (record { slots = copies.0; blocks = copies.1.items })) }
    {
        Ok((self.row.copy()?, self.blocks.clone()?))
    }

    /// Gives a slot another value of its type.
    pub fn set(&mut self, slot: usize, value: Value)
        requires { MayHave (lasting_types self.old.verified.code) slot value }
        ensures { self.new ≡ start_of self.old.verified
            (record self.old.lasting { slots = slice_set self.old.lasting.slots slot value })
            self.old.moment }
    {
        self.row.set(slot, value);
    }

    /// The verified code.
    pub fn verified_code(&self) -> &Verified
        ensures value { result.now ≡ self.now.verified }
    {
        self.prepared.verified_code()
    }

    /// The verified code as the machine reads it.
    pub fn prepared_code(&self) -> &PreparedCode
        ensures value { result.now ≡ self.now.verified }
    {
        &self.prepared
    }

    /// A value for each slot of the programs.
    pub fn row(&self) -> &ValueRow
        ensures value { result.now ≡ self.now.lasting.slots }
        ensures in_types { AreOf self.now.lasting.slots (lasting_types self.now.verified.code) }
    {
        &self.row
    }

    /// The number of the programs' slots.
    pub fn slots(&self) -> usize
        ensures value { result ≡ length self.now.lasting.slots }
    {
        self.row.len()
    }

    /// The value of a slot.
    pub fn value(&self, slot: usize) -> Value
        requires { slot < length self.now.lasting.slots }
        ensures value { slice_get self.now.lasting.slots slot ≡ Some result }
    {
        self.row.get(slot)
    }

    /// What each block instance of the code keeps.
    pub fn blocks(&self) -> &[BlockState]
        ensures value { result.now ≡ self.now.lasting.blocks }
        ensures in_types { AllZip (IsBlockOf self.now.verified.code.buses)
            self.now.lasting.blocks self.now.verified.code.kinds }
    {
        &self.blocks
    }

    /// The moment of the snapshot in milliseconds.
    pub fn moment(&self) -> u64
        ensures value { result ≡ self.now.moment }
    {
        self.moment
    }
}
