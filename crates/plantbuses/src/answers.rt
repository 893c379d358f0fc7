//! What the end of a transaction writes to a global variable.

ghost use Rattle.std.specs.Prelude.{◌≡◌, ◌<◌, length, map, Some, IfSome};
ghost use Rattle.iltypes.specs.declared.value.IlType.{IlType};
ghost use Rattle.ilmachine.specs.Images.{Global as GlobalVariable};
ghost use Rattle.ilmachine.specs.Snapshots.{MayHave};
ghost use Rattle.plantevents.specs.Variables.{reply_value, outcome_value, answerer_by};
ghost use Rattle.plantevents.specs.Variables.{is_answer_of};
ghost use Rattle.plantbuses.specs.AnswerSteps.{FitsAnswers, IsWrittenAs, answer_write, answer_at};

use buslink::{Outcome, Reply};
use gearcmd::Answerer;
use ilplan::{Location, Plan};
use iltypes::Value;
use plantevents::Origin;

/// The value at an answer's input where no answer came, which is NO to a query.
const NO_ANSWER: i64 = 256;

/// The value there where something came that is no answer.
const DAMAGED_ANSWER: i64 = 257;

/// What a reply writes: an answer's byte, 256 for none, 257 for a damaged one.
#[tactic(auto, using(crate::proofs::Fitting::within_up_to))]
fn reply_value(reply: Reply) -> Option<Value>
    ensures value { result ≡ reply_value reply }
    ensures fits { IfSome result FitsAnswers }
{
    match reply {
        Reply::Quiet => Some(Value::Int(NO_ANSWER)),
        Reply::Answer(byte) => Some(Value::Int(i64::from(byte))),
        Reply::Damaged => Some(Value::Int(DAMAGED_ANSWER)),
        Reply::Lost => None,
    }
}

/// What the end of a transaction writes: its reply, and nothing where it gave up or failed.
fn outcome_value(outcome: Outcome) -> Option<Value>
    ensures value { result ≡ outcome_value outcome }
    ensures fits { IfSome result FitsAnswers }
{
    match outcome {
        Outcome::Done(reply) => reply_value(reply),
        Outcome::GaveUp | Outcome::Failed => None,
    }
}

/// Whose answer a transaction brings, if it is that of a query or a memory read.
fn answerer_of(origin: &Origin) -> Option<Answerer>
    ensures value { result ≡ answerer_by origin.now }
{
    match origin {
        Origin::Queued(request) => request.answerer(),
        Origin::Output { .. } => None,
    }
}

/// Whether the answers of this gear, or of this device, on the bus are located there.
fn is_answer_of(bus: u8, answerer: &Option<Answerer>, location: Location) -> bool
    ensures value { result ≡ is_answer_of bus answerer.now (Some location) }
{
    match answerer {
        Some(Answerer::Gear(gear)) => match location {
            Location::GearAnswer { bus: own, short } => own == bus && short == gear.number(),
            _ => false,
        },
        Some(Answerer::Instance { address, .. }) => match location {
            Location::DeviceAnswer { bus: own, short } => own == bus && short == address.number(),
            _ => false,
        },
        None => false,
    }
}

/// What a transaction on a bus, which brings this answerer's answer, writes to a variable that is
/// located there.
fn answer_value(
    location: Location,
    bus: u8,
    answerer: Option<Answerer>,
    outcome: Outcome,
) -> Option<Value>
    ensures value { result ≡ answer_write bus answerer outcome (Some location) }
    ensures in_type { (value_type : IlType) → IfSome result (IsWrittenAs value_type location) }
{
    if is_answer_of(bus, &answerer, location) {
        outcome_value(outcome)
    } else {
        None
    }
}

/// What the end of a transaction, which was made of this and sent on a bus, writes to a global
/// variable.
pub fn answer_to(
    plan: &Plan,
    global: usize,
    bus: u8,
    origin: &Origin,
    outcome: Outcome,
) -> Option<Value>
    requires { global < length plan.now.globals }
    ensures value { result ≡ answer_at plan.now bus origin.now outcome (GlobalVariable global) }
    ensures in_type { IfSome result (MayHave (map (λ g. g.value_type) plan.now.globals) global) }
{
    let _lawful = plan.buses();
    let location = plan.global(global).location?;
    answer_value(location, bus, answerer_of(origin), outcome)
}
