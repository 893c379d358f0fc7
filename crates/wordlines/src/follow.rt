//! Which statement may stand after which.

ghost use Rattle.std.specs.Prelude.{◌≡◌, ◌+◌, ◌≤◌, ◌↔◌, length, IsTrue, IfSome, None};
ghost use Rattle.std.specs.List.{list_any};
ghost use Rattle.wordlines.specs.Following.{is_gear_at, is_device_at, is_instance_at, is_reply_to};
ghost use Rattle.wordlines.specs.Following.{IsKnown, IsInTime, Follows, MayStand, clock};
ghost use Rattle.wordlines.specs.Following.{most_statements};
ghost use Rattle.wordlines.specs.TickRows.{further};

use crate::entries::ScenarioEntry;
use crate::known::{Declaration, Known};
use crate::statements::Statement;
use crate::tick_row::TickRow;
use daliframe::{BusNumber, InstanceNumber, ShortAddress};

/// As many statements as a file can have lines `tick 0`.
const MOST_STATEMENTS: usize = (limits::MOST_BYTES + 1) / 7;

/// Whether what a line stands for may stand after statements, at which the clock came to `now`.
pub(crate) fn may_stand(before: &Known, now: Option<u64>, entry: &ScenarioEntry) -> bool
    requires { now ≡ clock before.now }
    ensures { IsTrue result ↔ MayStand before.now entry.now }
{
    match entry {
        ScenarioEntry::One { statement } => may_follow(before, now, statement),
        ScenarioEntry::Ticks { row } => is_upto(now, row.first()) && has_room(before, row),
    }
}

/// Whether there is room for ticks behind statements.
fn has_room(before: &Known, row: &TickRow) -> bool
    ensures { IsTrue result ↔ (length before.now + (further row.now + 1) ≤ most_statements) }
{
    let room = MOST_STATEMENTS.saturating_sub(before.len());
    row.further() < room as u64
}

/// Whether a statement may stand after those before it, at which the clock came to `now`.
fn may_follow(before: &Known, now: Option<u64>, statement: &Statement) -> bool
    requires { now ≡ clock before.now }
    ensures { IsTrue result ↔ Follows before.now statement.now }
{
    is_in_time(now, statement) && is_known(before, statement)
}

/// Whether a statement may stand where the clock came to `now`.
fn is_in_time(now: Option<u64>, statement: &Statement) -> bool
    ensures { IsTrue result ↔ IsInTime now statement.now }
{
    match *statement {
        Statement::Tick { moment } => is_upto(now, moment),
        Statement::Event { .. } | Statement::HearFault { .. } => true,
        Statement::Gear { .. }
        | Statement::LampFailure { .. }
        | Statement::Memory { .. }
        | Statement::Device { .. }
        | Statement::InputInstance { .. }
        | Statement::Reply { .. } => is_nowhere(now),
    }
}

/// Whether the clock is not past a moment.
fn is_upto(now: Option<u64>, moment: u64) -> bool
    ensures { IsTrue result ↔ IfSome now (λ last. last ≤ moment) }
{
    match now {
        Some(last) => last <= moment,
        None => true,
    }
}

/// Whether neither a tick nor an event came.
fn is_nowhere(now: Option<u64>) -> bool
    ensures { IsTrue result ↔ (now ≡ None) }
{
    match now {
        Some(_) => false,
        None => true,
    }
}

/// Whether what a statement names is declared before it, and what it declares is not.
fn is_known(before: &Known, statement: &Statement) -> bool
    ensures { IsTrue result ↔ IsKnown before.now statement.now }
{
    match *statement {
        Statement::Gear { bus, short, .. } => !has_gear(before, bus, short),
        Statement::LampFailure { bus, short } => has_gear(before, bus, short),
        Statement::Memory { bus, short, .. } => has_gear(before, bus, short),
        Statement::Device { bus, short } => !has_device(before, bus, short),
        Statement::InputInstance {
            bus,
            short,
            number,
            ..
        } => { has_device(before, bus, short) && !has_instance(before, bus, short, number) }
        Statement::Reply { bus, place, .. } => !has_reply(before, bus, place),
        Statement::HearFault { .. } | Statement::Tick { .. } | Statement::Event { .. } => true,
    }
}

/// Whether a control gear is declared.
fn has_gear(before: &Known, bus: BusNumber, short: ShortAddress) -> bool
    ensures { result ≡ list_any (is_gear_at bus short) before.now }
{
    before.has(Declaration::Gear {
        bus: bus.number(),
        short: short.number(),
    })
}

/// Whether a control device is declared.
fn has_device(before: &Known, bus: BusNumber, short: ShortAddress) -> bool
    ensures { result ≡ list_any (is_device_at bus short) before.now }
{
    before.has(Declaration::Device {
        bus: bus.number(),
        short: short.number(),
    })
}

/// Whether an instance is declared.
fn has_instance(before: &Known, bus: BusNumber, short: ShortAddress, number: InstanceNumber) -> bool
    ensures { result ≡ list_any (is_instance_at bus short number) before.now }
{
    before.has(Declaration::Instance {
        bus: bus.number(),
        short: short.number(),
        number: number.number(),
    })
}

/// Whether a line says what becomes of a frame.
fn has_reply(before: &Known, bus: BusNumber, place: u64) -> bool
    ensures { result ≡ list_any (is_reply_to bus place) before.now }
{
    before.has(Declaration::Reply {
        bus: bus.number(),
        place,
    })
}
