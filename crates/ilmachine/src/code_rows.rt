//! Rows of codes, and block instances.

ghost use Rattle.std.specs.Prelude.{◌≡◌, IfOk};
ghost use Rattle.iltypes.specs.Values.{AreOf};
ghost use Rattle.ilblocks.specs.Stores.{blocks_at_first};
ghost use Rattle.ilverify.specs.Listings.{lasting_types};

use ilblocks::{BlockKind, BlockState};
use ilcells::{RowLayout, ValueRow};
use iltypes::Value;
use ilverify::Code;
use std::alloc::{AllocError, Global};
use std::sync::Arc;

/// The row of these values, one in its type for each slot of the code's programs. Those of its
/// functions stand behind them, and only a scan has them.
pub(crate) fn row_of(alloc: Global, code: &Code, values: &[Value]) -> Result<ValueRow, AllocError>
    requires { AreOf values.now (lasting_types code.now) }
    ensures { IfOk result (λ row. row ≡ values.now) }
{
    let _words = code.words();
    let layout = RowLayout::of(alloc, &code.slots()[..values.len()])?;
    ValueRow::of(alloc, Arc::new(alloc, layout)?, values)
}

/// Instances of these kinds before their first call.
pub(crate) fn first_blocks(
    alloc: Global,
    kinds: &[BlockKind],
) -> Result<Vec<BlockState>, AllocError>
    ensures { IfOk result (λ blocks. blocks.items ≡ blocks_at_first kinds.now) }
{
    let mut blocks = Vec::new(alloc);
    for kind in kinds {
        blocks.push(BlockState::at_first(*kind))?;
    }
    Ok(blocks)
}
