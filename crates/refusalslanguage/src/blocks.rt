//! Function blocks.

ghost use Rattle.std.specs.Prelude.{◌≡◌, [], ◌∷◌, None, Some, false, pos, slice_get, true};

use gearcmd::Request;
use ilblocks::{BlockKind, BlockState, PortValues, step};
use iltypes::Value;

/// `counters_preset_up_to_9`: the input PV of a counter took 0 to 9.
pub fn counters_are_preset_by_an_int() -> Option<PortValues>
    ensures { result ≡ Some PortValues.Int }
{
    let port = BlockKind::Ctu.ports().get(2)?;
    Some(port.values)
}

/// `counts_past_its_greatest`: a counter at its greatest number counted on.
pub fn counter_stays_at_its_greatest(block: &mut BlockState) -> Option<Request>
    requires before { block.old.before ≡ false }
    requires ports { block.old.ports
        ≡ Value.Bool true ∷ Value.Bool false ∷ Value.Int (pos 9) ∷ Value.Bool true
        ∷ Value.Int (pos 32767) ∷ [] }
    ensures { slice_get block.new.ports 4 ≡ Some (Value.Int (pos 32767)) }
{
    step(BlockKind::Ctu, block, 0)
}

/// `trigger_without_its_memory`: Q of R_TRIG was TRUE at each call with CLK TRUE.
pub fn trigger_tells_an_edge_once(block: &mut BlockState) -> Option<Request>
    requires before { block.old.before ≡ true }
    requires ports { block.old.ports ≡ Value.Bool true ∷ Value.Bool true ∷ [] }
    ensures { slice_get block.new.ports 1 ≡ Some (Value.Bool false) }
{
    step(BlockKind::RTrig, block, 0)
}

/// `request_at_each_call`: a block whose REQ stays TRUE made a request at each call.
pub fn request_is_made_once(block: &mut BlockState) -> Option<Request>
    requires before { block.old.before ≡ true }
    requires ports { block.old.ports
        ≡ Value.Bool true ∷ Value.Int (pos 0) ∷ Value.Int (pos 5) ∷ Value.Int (pos 254) ∷ [] }
    ensures { result ≡ None }
{
    step(BlockKind::GearLevel, block, 0)
}
