//! What the types of one lock agree on.

use std::marker::Brand;

/// The plant at the start, and the row of cells that its events are written to.
pub trait LockStart {
    ghost use Rattle.std.specs.Prelude.{List};
    ghost use Rattle.std.specs.Sync.OnceLock.{Named};
    ghost use Rattle.plant.specs.Shown.{Shown};

    ghost start: { Shown };

    ghost cells: { List Named };
}

impl LockStart for Brand {
    ghost use Rattle.std.specs.Prelude.{[]};
    ghost use Rattle.plant.specs.Rows.{quiet};

    ghost start = { quiet };

    ghost cells = { [] };
}
