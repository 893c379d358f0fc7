//! One call of an instance.

ghost use Rattle.std.specs.Prelude.{◌≡◌, ℕ, ◌≤◌, ◌<◌, ◌^◌, length, IfSome};
ghost use Rattle.gearcmd.specs.Limits.{most_buses};
ghost use Rattle.ilblocks.specs.Calls.{IsBlockOf, after_call, requested, count, elapsed, start_of};
ghost use Rattle.ilblocks.specs.Calls.{ports_of_trigger, ports_of_counter, ports_of_timer};

use crate::kind::BlockKind;
use crate::request::request_of;
use crate::state::BlockState;
use gearcmd::Request;
use iltypes::Value;

/// The greatest number that CTU counts to.
const GREATEST_COUNT: i64 = 32_767;

/// R_TRIG: Q is whether CLK rises.
fn trigger(block: &mut BlockState)
    requires { 1 < length block.old.ports }
    ensures { block.new ≡ record block.old { ports = ports_of_trigger block.old } }
{
    let rises = block.rises();
    block.set_port(1, Value::Bool(rises));
}

/// CV of CTU after a call.
fn count_of(block: &BlockState) -> i64
    ensures { result ≡ count block.now }
{
    if block.truth(1) {
        return 0;
    }
    let count = block.number(4);
    if block.rises() && count < GREATEST_COUNT {
        count + 1
    } else {
        count
    }
}

/// CTU: CV counts the rising edges of CU, and Q is whether it reaches PV.
fn count(block: &mut BlockState)
    requires { 4 < length block.old.ports }
    ensures { block.new ≡ record block.old { ports = ports_of_counter block.old } }
{
    let count = count_of(block);
    let reached = block.number(2) <= count;
    block.set_port(3, Value::Bool(reached));
    block.set_port(4, Value::Int(count));
}

/// ET of TON after a call.
fn elapsed_of(block: &BlockState, start: u64, moment: u64) -> u64
    requires { start ≡ start_of moment block.now }
    ensures value { result ≡ elapsed moment block.now }
    ensures fits { result < 2 ^ 63 }
{
    if block.truth(0) {
        moment.saturating_sub(start).min(block.natural(1))
    } else {
        0
    }
}

/// TON: ET is how long IN has been TRUE, up to PT, and Q whether it has reached PT.
fn time(block: &mut BlockState, moment: u64)
    requires { 3 < length block.old.ports }
    ensures { block.new ≡ record block.old {
      ports = ports_of_timer moment block.old;
      start = start_of moment block.old;
    } }
{
    let start = if block.rises() { moment } else { block.start() };
    let elapsed = elapsed_of(block, start, moment);
    let over = block.truth(0) && elapsed == block.natural(1);
    block.set_port(2, Value::Bool(over));
    block.set_port(3, Value::Int(elapsed as i64));
    block.start_at(start);
}

/// Calls an instance of the kind once, at a moment in milliseconds: its outputs and what it
/// remembers become what the equations of the kind say, and a request block makes a request of its
/// ports at each rising edge of REQ.
pub fn step(kind: BlockKind, block: &mut BlockState, moment: u64) -> Option<Request>
    requires { IsBlockOf most_buses block.old kind }
    ensures after { block.new ≡ after_call kind moment block.old }
    ensures request { result ≡ requested kind block.old }
    // On fewer buses too the ports stay in their ranges, and the request's bus is one of them.
    ensures typed { (buses : ℕ) → IsBlockOf buses block.old kind → IsBlockOf buses block.new kind }
    ensures bus { (buses : ℕ) → 1 ≤ buses → IsBlockOf buses block.old kind
        → IfSome result (λ request. request.bus < buses) }
{
    let first = block.truth(0);
    let request = if block.rises() {
        request_of(kind, block)
    } else {
        None
    };
    match kind {
        BlockKind::RTrig => trigger(block),
        BlockKind::Ctu => count(block),
        BlockKind::Ton => time(block, moment),
        BlockKind::GearLevel
        | BlockKind::GearDo
        | BlockKind::GearSet
        | BlockKind::GearPair
        | BlockKind::GearAsk
        | BlockKind::GearRead
        | BlockKind::DevDo
        | BlockKind::DevScheme
        | BlockKind::DevAsk => {}
    }
    block.remember(first);
    request
}
