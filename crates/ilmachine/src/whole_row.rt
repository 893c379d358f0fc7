//! Rows with a value for each slot of a code, and for those that last.

ghost use Rattle.std.specs.Prelude.{◌≡◌, ◌++◌, ◌≤◌, IfOk, take, drop, map, length};
ghost use Rattle.iltypes.specs.Values.{AreOf};
ghost use Rattle.ilcode.specs.Listings.{lasting_types, slots_end};
ghost use Rattle.ilcells.specs.Banks.{kinds_of, kinds_of_types};
ghost use Rattle.ilmachine.specs.MachineSteps.{IsRoomFor};
ghost use Rattle.ilcode.specs.Lasting.{least_of, least_values};

use ilcells::ValueRow;
use ilcode::Code;
use iltypes::{IlType, Value};
use std::alloc::AllocError;

/// The row of all slots of a code from that of those that last: in the slots of functions stands
/// FALSE or the lower limit.
pub(crate) fn whole_row(code: &Code, lasting: &ValueRow) -> Result<ValueRow, AllocError>
    requires { AreOf lasting.now (lasting_types code.now) }
    ensures { IfOk result (λ row. row ≡ lasting.now ++ least_values code.now) }
{
    let _words = code.words();
    let types = code.slots();
    let mut row = lasting.longer(types)?;
    reset(&mut row, types, lasting.len());
    Ok(row)
}

/// Writes FALSE or the lower limit of its type into each slot from this one on.
fn reset(row: &mut ValueRow, types: &[IlType], from: usize)
    requires kinds { kinds_of row.old ≡ kinds_of_types types.now }
    requires there { from ≤ length types.now }
    ensures { row.new ≡ take from row.old ++ map least_of (drop from types.now) }
{
    for slot in from..types.len() {
        row.set(slot, least_of(types[slot]));
    }
}

/// FALSE, or the lower limit.
fn least_of(of: IlType) -> Value
    ensures { result ≡ least_of of }
{
    match of {
        IlType::Bool => Value::Bool(false),
        IlType::Int(range) => Value::Int(range.lo),
    }
}

/// The row of the slots that last from that of all, in the room for it. It takes no memory.
pub(crate) fn lasting_row(code: &Code, row: ValueRow, room: Option<ValueRow>) -> ValueRow
    requires typed { AreOf row code.now.slots }
    requires room { IsRoomFor code.now room }
    ensures { result ≡ take (slots_end code.now 0) row }
{
    match room {
        None => row,
        Some(mut lasting) => {
            lasting.take_start(&row);
            lasting
        }
    }
}
