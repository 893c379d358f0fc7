//! What events write to the process image.

ghost use Rattle.std.specs.Prelude.{◌≡◌, ◌≢◌, ℕ, ◌+◌, ◌<◌, List, length, map, Some, None};
ghost use Rattle.std.specs.Prelude.{IfSome};
ghost use Rattle.std.specs.List.{position};
ghost use Rattle.iltypes.specs.declared.value.IlType.{IlType};
ghost use Rattle.ilmachine.specs.Images.{ImageVariable, layout_of, value_of, blocks_of};
ghost use Rattle.ilmachine.specs.Images.{Global as GlobalVariable};
ghost use Rattle.ilmachine.specs.Snapshots.{MayHave};
ghost use Rattle.plantevents.specs.Variables.{newest};
ghost use Rattle.plantbuses.specs.AnswerSteps.{IsWrittenAs};
ghost use Rattle.plant.specs.IndexSteps.{IsFromBus, numbers_on, sources_on};
ghost use Rattle.plant.specs.InputSteps.{is_bound_at, written_by, input_at};

use crate::index::BusInputs;
use daliframe::Frame24;
use ilmachine::Image;
use ilplan::{Location, Plan};
use iltypes::Value;
use wordlines::BoundSource;

/// The number of the source that is bound at this place of a bus.
fn source_number(sources: &[BoundSource], numbers: &[usize], bus: u8, number: u8) -> Option<usize>
    requires { numbers.now ≡ numbers_on bus 0 sources.now }
    ensures value { result ≡ position (is_bound_at bus number) sources.now }
{
    for i in numbers {
        if sources[*i].number == number {
            return Some(*i);
        }
    }
    None
}

/// What a frame that was heard on a bus writes to a variable that is located there, where `counts`
/// has counted it.
#[tactic(auto, using(plantbuses::proofs::Fitting::within_up_to))]
fn message_value(
    sources: &[BoundSource],
    numbers: &[usize],
    counts: &[u16],
    location: Location,
    bus: u8,
    frame: Frame24,
) -> Option<Value>
    requires each { length counts.now ≡ length sources.now }
    requires bound { numbers.now ≡ numbers_on bus 0 sources.now }
    ensures value { result ≡ written_by sources.now counts.now bus frame location }
    ensures in_type { (value_type : IlType) → IfSome result (IsWrittenAs value_type location) }
{
    let (own, number) = match location {
        Location::Information { bus: own, source } | Location::Count { bus: own, source } => {
            (own, source)
        }
        _ => return None,
    };
    if own != bus {
        return None;
    }
    let i = source_number(sources, numbers, bus, number)?;
    let information = sources[i].source.information(frame)?;
    match location {
        Location::Count { .. } => Some(Value::Int(i64::from(counts[i]))),
        _ => Some(Value::Int(i64::from(information))),
    }
}

/// Gives a global variable this value, if there is one. It takes no memory.
pub(crate) fn give(image: &mut Image, global: usize, value: Option<Value>)
    requires { IfSome value (λ value. MayHave image.old.types global value) }
    ensures layout { layout_of image.new ≡ layout_of image.old }
    ensures written { value_of image.new (GlobalVariable global)
        ≡ newest value (value_of image.old (GlobalVariable global)) }
    ensures kept { (variable : ImageVariable) → variable ≢ GlobalVariable global
        → value_of image.new variable ≡ value_of image.old variable }
    ensures blocks { (task : ℕ) → blocks_of image.new task ≡ blocks_of image.old task }
{
    if let Some(value) = value {
        image.set_input(global, value);
    }
}

/// What a frame that was heard on a bus writes to a global variable.
fn message_to(
    plan: &Plan,
    numbers: &[usize],
    counts: &[u16],
    global: usize,
    bus: u8,
    frame: Frame24,
) -> Option<Value>
    requires known { global < length plan.now.globals }
    requires each { length counts.now ≡ length plan.now.sources }
    requires bound { numbers.now ≡ sources_on plan.now bus }
    ensures value { result ≡ input_at plan.now counts.now bus frame (GlobalVariable global) }
    ensures in_type { IfSome result (MayHave (map (λ g. g.value_type) plan.now.globals) global) }
{
    let _lawful = plan.buses();
    let location = plan.global(global).location?;
    message_value(plan.sources(), numbers, counts, location, bus, frame)
}

/// Writes the information and the count of each source that a frame, which was heard on a bus, is
/// a message of, to the global variables that are located at inputs of the bus. It takes no memory.
pub(crate) fn write_message(
    plan: &Plan,
    inputs: &BusInputs,
    counts: &[u16],
    image: &mut Image,
    bus: u8,
    frame: Frame24,
)
    requires inputs { IsFromBus plan.now bus inputs.now }
    requires each { length counts.now ≡ length plan.now.sources }
    requires types { image.old.types ≡ map (λ g. g.value_type) plan.now.globals }
    ensures layout { layout_of image.new ≡ layout_of image.old }
    ensures values { (v : ImageVariable) → value_of image.new v
        ≡ newest (input_at plan.now counts.now bus frame v) (value_of image.old v) }
    ensures blocks { (task : ℕ) → blocks_of image.new task ≡ blocks_of image.old task }
{
    let numbers = inputs.numbers();
    for i in 0..numbers.len() {
        let global = numbers[i];
        let value = message_to(plan, inputs.sources(), counts, global, bus, frame);
        give(image, global, value);
    }
}
