//! The levels that are owed.

ghost use Rattle.std.specs.Prelude.{◌≡◌, ◌≢◌, ◌==◌, ◌&&◌, ℕ, ◌<◌, ◌≤◌, ◌∷◌, List, length, IfOk};
ghost use Rattle.std.specs.Prelude.{MatchOption, Some, is_some, option_and_then, slice_get};
ghost use Rattle.std.specs.Int.{bit_at};
ghost use Rattle.gearcmd.specs.FrameLists.{FrameList};
ghost use Rattle.gearcmd.specs.Requests.{task_class};
ghost use Rattle.busqueue.specs.declared.class.Class.{Class as RequestClass};
ghost use Rattle.busqueue.specs.Queues.{class_number};
ghost use Rattle.plantevents.specs.declared.event.Event.{Event};
ghost use Rattle.plantevents.specs.declared.event.Event.TheVariants.{Hand, Up};
ghost use Rattle.plantevents.specs.Plants.{Plant as Made};
ghost use Rattle.plantevents.specs.Waiting.{handouts, if_new, natural_in};
ghost use Rattle.plantbuses.specs.AddressSets.{HasNone, IsLeast, one_if};
ghost use Rattle.plantbuses.specs.KeptSteps.{BusFollows, BusesFollow, ImageFollows, bus_at};
ghost use Rattle.plantbuses.specs.HandingSteps.{IsOfClass};
ghost use Rattle.plantbuses.specs.OutputSteps.{AreOutputsOf, OutputsFollow, outputs_at};
ghost use Rattle.plantbuses.specs.OwedSteps.{OwedFollow, OwedFollows, OwesAt, addresses_of};

use crate::address_set::AddressSet;
use crate::bus::BusState;
use crate::next::Next;
use crate::outputs::{BusOutputs, LEVELS};
use busqueue::Class;
use gearcmd::TaskKind;
use ilmachine::Image;
use iltypes::Value;
use plantevents::Origin;
use std::alloc::{AllocError, Global};

/// The levels of a bus that are owed: those that event tasks store, and those that cyclic tasks
/// store.
#[derive(Clone, Copy)]
pub struct OwedLevels {
    event: AddressSet,
    cyclic: AddressSet,
}

impl OwedLevels {
    /// None.
    fn new() -> OwedLevels
        ensures { (class : RequestClass) (a : ℕ) → bit_at (addresses_of class result) a ≡ 0 }
    {
        OwedLevels {
            event: AddressSet::new(),
            cyclic: AddressSet::new(),
        }
    }

    /// Notes whether the level of an address, which tasks of this kind store, is owed.
    fn note(&mut self, kind: TaskKind, address: u8, is_owed: bool)
        requires { address ≤ 80 }
        ensures here { (class : RequestClass) → bit_at (addresses_of class self.new) address
            ≡ one_if (task_class kind == class_number class && is_owed) }
        ensures others { (class : RequestClass) (a : ℕ) → a < 81 → a ≢ address
            → bit_at (addresses_of class self.new) a ≡ bit_at (addresses_of class self.old) a }
    {
        match kind {
            TaskKind::Event => {
                self.event.note(address, is_owed);
                self.cyclic.note(address, false);
            }
            TaskKind::Cyclic => {
                self.event.note(address, false);
                self.cyclic.note(address, is_owed);
            }
        }
    }

    /// The least address at which a level of a class is owed.
    pub fn least(&self, class: Class) -> Option<u8>
        ensures { MatchOption result (HasNone (addresses_of class self.now))
            (IsLeast (addresses_of class self.now)) }
    {
        match class {
            Class::UserAction => self.event.least(),
            Class::AutomaticAction => self.cyclic.least(),
            Class::Configuration | Class::Query => None,
        }
    }
}

/// Whether a value is another level than this.
fn is_new(value: Option<Value>, last: u8) -> bool
    ensures { (a : ℕ) → result ≡ is_some (option_and_then (if_new last a) (natural_in value)) }
{
    match value {
        Some(Value::Int(level)) => level >= 0 && level != i64::from(last),
        _ => false,
    }
}

/// The value of a global variable, if there is one of this number.
fn value_at(image: &Image, global: usize) -> Option<Value>
    ensures { result ≡ slice_get image.now.globals global }
{
    image.values().get(global).copied()
}

/// Notes whether the level of an address is owed.
pub(crate) fn note_level(
    owed: &mut OwedLevels,
    outputs: &BusOutputs,
    bus: &BusState,
    image: &Image,
    address: u8,
)
    requires address { address ≤ 80 }
    requires outputs { length outputs.now ≡ 81 }
    requires levels { length bus.now.levels ≡ 81 }
    ensures here { (p : Made) (b : ℕ) (h : List Event) (class : RequestClass)
        → AreOutputsOf p b outputs.now → BusFollows p b h bus.now → ImageFollows p h image.now
        → OwesAt p b h owed.new class address }
    ensures others { (class : RequestClass) (a : ℕ) → a < 81 → a ≢ address
        → bit_at (addresses_of class owed.new) a ≡ bit_at (addresses_of class owed.old) a }
{
    let last = bus.levels[usize::from(address)];
    let Some(output) = outputs.at(address) else {
        owed.note(TaskKind::Cyclic, address, false);
        return;
    };
    let value = value_at(image, output.global);
    owed.note(output.kind, address, is_new(value, last));
}

/// The levels of a bus that are owed.
fn bus_owed(outputs: &BusOutputs, bus: &BusState, image: &Image) -> OwedLevels
    requires outputs { length outputs.now ≡ 81 }
    requires levels { length bus.now.levels ≡ 81 }
    ensures { (p : Made) (b : ℕ) (h : List Event) → AreOutputsOf p b outputs.now
        → BusFollows p b h bus.now → ImageFollows p h image.now → OwedFollows p b h result }
{
    let mut owed = OwedLevels::new();
    for address in 0..LEVELS {
        note_level(&mut owed, outputs, bus, image, address);
    }
    owed
}

/// The levels of each bus that are owed.
pub fn owed_levels(
    alloc: Global,
    outputs: &[BusOutputs],
    buses: &[BusState],
    image: &Image,
) -> Result<Vec<OwedLevels>, AllocError>
    requires count { length outputs.now ≡ length buses.now }
    requires outputs { (b : ℕ) → b < length buses.now → length (outputs_at outputs.now b) ≡ 81 }
    requires levels { (b : ℕ) → b < length buses.now → length (bus_at buses.now b).levels ≡ 81 }
    ensures { IfOk result (λ owed. (p : Made) (h : List Event) → OutputsFollow p outputs.now
        → BusesFollow p h buses.now → ImageFollows p h image.now
        → OwedFollow p h owed.items) }
{
    let mut owed = Vec::new(alloc);
    for bus in 0..buses.len() {
        owed.push(bus_owed(&outputs[bus], &buses[bus], image))?;
    }
    Ok(owed)
}

/// Notes which levels of a bus are owed now that it is up again: it goes over the addresses of that
/// bus alone. It takes no memory.
pub fn note_owed_anew(
    owed: &mut Vec<OwedLevels>,
    outputs: &[BusOutputs],
    buses: &[BusState],
    image: &Image,
    bus: u8,
)
    requires known { bus < length owed.old.items }
    requires located { bus < length outputs.now }
    requires kept { bus < length buses.now }
    requires outputs { length (outputs_at outputs.now bus) ≡ 81 }
    requires levels { length (bus_at buses.now bus).levels ≡ 81 }
    ensures { (p : Made) (h : List Event) → OutputsFollow p outputs.now
        → BusesFollow p (Up bus ∷ h) buses.now → ImageFollows p (Up bus ∷ h) image.now
        → OwedFollow p h owed.old.items → OwedFollow p (Up bus ∷ h) owed.new.items }
{
    let number = usize::from(bus);
    owed[number] = bus_owed(&outputs[number], &buses[number], image);
}

/// Notes that a bus was handed what is next: a level is owed no more.
pub fn note_handed(owed: &mut Vec<OwedLevels>, bus: u8, next: Next)
    requires known { bus < length owed.old.items }
    requires class { IsOfClass next.class next.origin }
    ensures { (p : Made) (t : FrameList) (h : List Event)
        → slice_get (handouts p bus h) 0
        ≡ Some (record { origin = next.origin; transaction = t })
        → OwedFollow p h owed.old.items
        → OwedFollow p (Hand bus next.origin t ∷ h) owed.new.items }
{
    let Origin::Output { address, .. } = next.origin else {
        return;
    };
    owed[usize::from(bus)].note(TaskKind::Cyclic, address, false);
}
