//! Notes on block instances: those that are not called, or whose first input lets them do nothing,
//! or one thing once; timers that cannot do what they are for; settings that are made again and
//! again.

use crate::facts::TaskFacts;
use crate::kinds::Kind;
use crate::note::{Found, Note, note_on};
use ilblocks::{BlockKind, MOST_PORTS};
use ilplan::FunctionBlock;
use ilsource::Name;

/// The number of PT among the ports of a timer.
const TIME: usize = 1;

/// The numbers of R, PV and Q among the ports of a counter.
const COUNTER: [usize; 3] = [1, 2, 3];

/// The note on a block instance of this number, where there is one.
pub(crate) fn note_on_block(
    facts: &TaskFacts,
    number: usize,
    block: &FunctionBlock,
) -> Option<Note> {
    let first = facts.port(number, 0);
    let (name, kind) = (block.name, block.kind);
    if !first.is_called {
        return note_on_uncalled(facts, number, name);
    }
    let is_cyclic = facts.interval.is_some();
    let is_timer = matches!(kind, BlockKind::Ton);
    let is_own_setting = is_setting(kind) && is_cyclic;
    let task = Found::Task(facts.number);
    let [reset, wanted, output] = COUNTER;
    let is_counted = matches!(kind, BlockKind::Ctu) && facts.port(number, output).read > 0;
    let is_for_good = is_counted
        && facts.port(number, reset).value == Some(0)
        && facts.port(number, wanted).value.is_some();
    let (kind, second) = if is_timer && !is_cyclic {
        (Kind::TimerInEventTask, task)
    } else if is_timer && !facts.port(number, TIME).is_stored {
        (Kind::TimerWithoutTime, Found::Nothing)
    } else if is_own_setting && first.is_always_false && first.is_always_true {
        (Kind::SettingAtEachScan, task)
    } else if is_own_setting && first.is_always && facts.is_turned(number) {
        (Kind::SettingAtEachSecondScan, task)
    } else if is_counted && !facts.port(number, wanted).is_stored {
        (Kind::CountWithoutNumber, Found::Nothing)
    } else {
        // A setting that a cyclic task makes in its first scan is meant so.
        match (once_of(kind), first.one_value()) {
            (once, Some(0)) if once.is_some() || is_given(facts, number) => {
                (Kind::NeverTrue, Found::Port(kind, 0))
            }
            (Some(once), Some(1)) => (once, Found::Nothing),
            (None, Some(1)) if !is_own_setting => (Kind::RequestOnce, Found::Nothing),
            _ if is_for_good => (Kind::CountForGood, Found::Nothing),
            _ => return None,
        }
    };
    note_on(kind, name, second)
}

/// The note on a block instance that is not called.
fn note_on_uncalled(facts: &TaskFacts, number: usize, name: Name) -> Option<Note> {
    let kind = if is_given(facts, number) {
        Kind::StoredNeverCalled
    } else if (0..MOST_PORTS).any(|port| facts.port(number, port).read > 0) {
        Kind::ReadNeverCalled
    } else {
        Kind::UnusedBlock
    };
    note_on(kind, name, Found::Nothing)
}

/// Whether a block instance is given something.
fn is_given(facts: &TaskFacts, number: usize) -> bool {
    (0..MOST_PORTS).any(|port| facts.port(number, port).is_stored)
}

/// What is noted of a block that sends nothing, where its first input stays TRUE.
fn once_of(kind: BlockKind) -> Option<Kind> {
    match kind {
        BlockKind::RTrig => Some(Kind::EdgeOnce),
        BlockKind::Ctu => Some(Kind::CountOnce),
        BlockKind::Ton => Some(Kind::TimeOnce),
        _ => None,
    }
}

/// Whether a block makes settings.
fn is_setting(kind: BlockKind) -> bool {
    matches!(
        kind,
        BlockKind::GearSet | BlockKind::GearPair | BlockKind::DevDo | BlockKind::DevScheme
    )
}
