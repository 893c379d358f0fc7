//! Receipts.

ghost use Rattle.std.specs.Prelude.{◌≡◌};
ghost use Rattle.plantevents.specs.Parts.{placed};

use ghosts::{Memo, Trace};
use plantevents::Event;
use std::marker::Model;

/// An event and its place in the history, for contracts alone.
#[derive(Drop)]
pub(crate) struct Receipt {
    index: u64,
    event: Event,
}

impl Model for Receipt {
    ghost use Rattle.plantevents.specs.Parts.{Placed};
    ghost use Rattle.plantevents.specs.Parts.{placed};

    ghost Value = { Placed };

    ghost view = { λ r. placed r.index r.event };
}

impl Receipt {
    /// An event with its place.
    pub(crate) fn of(index: u64, event: Event) -> Receipt
        ensures { result ≡ placed index event }
    {
        Receipt { index, event }
    }
}

/// What a cell holds, for contracts alone: the receipts of a role up to the event of this cell, the
/// newest first.
pub struct NotedPart {
    receipts: Memo<Trace<Receipt>>,
}

/// Written out, so that it is proved here alone.
impl Drop for NotedPart {
    fn drop(self) {
        let Self { receipts: _ } = self;
    }
}

impl Model for NotedPart {
    ghost use Rattle.std.specs.Prelude.{List};
    ghost use Rattle.plantevents.specs.Parts.{Placed};

    ghost Value = { List Placed };

    ghost view = { λ n. n.receipts.value.items };
}

impl NotedPart {
    /// The receipts, noted.
    pub(crate) fn of(receipts: &Trace<Receipt>) -> NotedPart
        ensures { result ≡ receipts.now.items }
    {
        NotedPart {
            receipts: Memo::of(receipts),
        }
    }
}
