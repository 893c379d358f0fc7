//! Files of bindings.

ghost use Rattle.std.specs.Prelude.{◌≡◌, Err, true};
ghost use Rattle.wordlines.specs.Bindings.{GivesIfRoom};

use std::alloc::Global;
use wordlines::{BindFault, Binding, LineCause, LineFault};

/// `missing_buses_reported_at_line_2`: a file with no line was at fault at line 2.
pub fn missing_buses_are_reported_at_line_1(alloc: Global) -> Result<Binding, BindFault>
    ensures { GivesIfRoom result (Err (LineFault.At 1 LineCause.BadLine)) }
{
    Binding::parse(alloc, b"")
}

/// `six_attempts_accepted`: a bus might have six attempts.
pub fn six_attempts_are_refused(alloc: Global) -> bool
    ensures { result ≡ true }
{
    Binding::parse(alloc, b"buses 1\ntries 0 6").is_err()
}
