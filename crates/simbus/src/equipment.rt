//! What is on a simulated bus, with all that frames change of it.
ghost use Rattle.std.specs.Prelude.{◌≡◌, List, map, IfOk};
ghost use Rattle.std.specs.List.{filter_map};
ghost use Rattle.daliframe.specs.Frames.{HasFields16, HasFields24};
ghost use Rattle.buslink.specs.declared.marks.Sent.{Sent};
ghost use Rattle.simbus.specs.Histories.{same_frame, Setup, answer_of, is_reached, variables_at};
ghost use Rattle.simbus.specs.Histories.{is_instance, instance_variables_at, IsReachedBy};
ghost use Rattle.simbus.specs.Histories.{IsMissedBy};
ghost use Rattle.simbus.specs.Answers.{reply_of};
ghost use Rattle.simbus.specs.Instances.{dtr0_after_fields};
ghost use Rattle.std.specs.Prelude.{[], ◌∷◌, ◌==◌, if◌then◌else◌, option_map, find};
ghost use Rattle.simbus.specs.Kept.{live_gear, live_instance, IsAfterGearFields};
ghost use Rattle.simbus.specs.Kept.{IsAfterDeviceFields, IsEquipmentOf, is_begun};
ghost use Rattle.simbus.specs.Kept.{joined, gear_after_fields, live_instance_after_fields};
ghost use Rattle.simbus.specs.Kept.{live_answer, live_instance_answer};

use crate::{Gear, GearVariables, InputInstance, InstanceVariables, MemoryByte};
use buslink::{Mark, Reply};
use daliframe::{Fields16, Fields24, Frame, InstanceNumber, ShortAddress};
use std::alloc::{AllocError, Global};

/// Gear with its variables.
#[derive(Clone, Copy)]
pub(crate) struct LiveGear {
    gear: Gear,
    variables: GearVariables,
}

/// An instance of a control device with its variables.
#[derive(Clone, Copy)]
pub(crate) struct LiveInstance {
    instance: InputInstance,
    variables: InstanceVariables,
}

impl LiveGear {
    fn after_fields(self, fields: &Fields16, is_pair: bool) -> Self
        ensures { result ≡ gear_after_fields is_pair fields.now self }
    {
        let gear = self.gear;
        let variables = self.variables;
        LiveGear {
            gear,
            variables: variables.after_fields(gear.address, fields, is_pair),
        }
    }
}

impl LiveInstance {
    fn after_fields(self, dtr0: u8, fields: &Fields24, is_pair: bool) -> Self
        ensures { result ≡ live_instance_after_fields is_pair dtr0 fields.now self }
    {
        let variables = self.variables;
        LiveInstance {
            instance: self.instance,
            variables: self.instance.after_fields(variables, dtr0, fields, is_pair),
        }
    }
}

/// What is on a bus. It keeps what all frames so far made of it, and of the frames the one that
/// began a pair.
#[derive(Drop)]
pub(crate) struct Equipment {
    gears: Vec<LiveGear>,
    memory: Vec<MemoryByte>,
    instances: Vec<LiveInstance>,
    /// DTR0 of all control devices.
    device_dtr0: u8,
    /// The last frame, where an equal one makes it a pair.
    begun: Option<Frame>,
}

fn is_same(first: &Frame, second: &Frame) -> bool
    ensures { result ≡ same_frame first.now second.now }
{
    match first {
        Frame::Forward16(frame) => match second {
            Frame::Forward16(other) => frame.number() == other.number(),
            Frame::Forward24(_) => false,
        },
        Frame::Forward24(frame) => match second {
            Frame::Forward16(_) => false,
            Frame::Forward24(other) => frame.number() == other.number(),
        },
    }
}

/// Whether a pair was begun with this frame.
fn is_begun(begun: &Option<Frame>, frame: &Frame) -> bool
    ensures { result ≡ is_begun begun.now frame.now }
{
    match begun {
        Some(first) => is_same(first, frame),
        None => false,
    }
}

/// The reply with one answer more.
fn joined(reply: Reply, answer: Option<u8>) -> Reply
    ensures { result ≡ joined reply answer }
{
    match (reply, answer) {
        (_, None) => reply,
        (Reply::Quiet, Some(byte)) => Reply::Answer(byte),
        (Reply::Answer(_) | Reply::Damaged | Reply::Lost, Some(_)) => Reply::Damaged,
    }
}

fn gears_take(gears: &mut [LiveGear], fields: &Fields16, is_pair: bool)
    ensures { gears.new ≡ map (gear_after_fields is_pair fields.now) gears.old }
{
    for live in gears.iter_mut() {
        let before = *live;
        *live = before.after_fields(fields, is_pair);
    }
}

fn instances_take(instances: &mut [LiveInstance], dtr0: u8, fields: &Fields24, is_pair: bool)
    ensures { instances.new ≡ map (live_instance_after_fields is_pair dtr0 fields.now)
        instances.old }
{
    for live in instances.iter_mut() {
        let before = *live;
        *live = before.after_fields(dtr0, fields, is_pair);
    }
}

fn gears_reply(gears: &[LiveGear], memory: &[MemoryByte], fields: &Fields16) -> Reply
    ensures { result ≡ reply_of (filter_map (live_answer memory.now fields.now) gears.now) }
{
    let mut reply = Reply::Quiet;
    for live in gears {
        reply = joined(reply, live.gear.answer(&live.variables, memory, fields));
    }
    reply
}

fn instances_reply(instances: &[LiveInstance], fields: &Fields24) -> Reply
    ensures { result ≡ reply_of (filter_map (live_instance_answer fields.now) instances.now) }
{
    let mut reply = Reply::Quiet;
    for live in instances {
        reply = joined(reply, live.instance.answer(live.variables, fields));
    }
    reply
}

fn live_gears(alloc: Global, gears: &[Gear]) -> Result<Vec<LiveGear>, AllocError>
    ensures { IfOk result (λ v. v.items ≡ map (live_gear []) gears.now) }
{
    gears
        .iter()
        .map(|gear| LiveGear {
            gear: *gear,
            variables: GearVariables::new(&gear.start),
        })
        .collect(alloc)
}

fn live_instances(
    alloc: Global,
    instances: &[InputInstance],
) -> Result<Vec<LiveInstance>, AllocError>
    ensures { IfOk result (λ v. v.items ≡ map (live_instance []) instances.now) }
{
    instances
        .iter()
        .map(|instance| LiveInstance {
            instance: *instance,
            variables: instance.variables(),
        })
        .collect(alloc)
}

/// The frame that began a pair, after a frame that ended one or not.
fn begun_after(is_pair: bool, frame: &Frame) -> Option<Frame>
    ensures { result ≡ (if is_pair then None else Some frame.now) }
{
    if is_pair { None } else { Some(*frame) }
}

/// The variables of the gear at a short address.
fn gear_in(gears: &[LiveGear], address: ShortAddress) -> Option<GearVariables>
    ensures { result ≡ option_map (λ live. live.variables)
        (find (λ live. live.gear.address == address) gears.now) }
{
    gears
        .iter()
        .find(|live| live.gear.address.number() == address.number())
        .map(|live| live.variables)
}

/// The variables of an instance of a control device.
fn instance_in(
    instances: &[LiveInstance],
    address: ShortAddress,
    number: InstanceNumber,
) -> Option<InstanceVariables>
    ensures { result ≡ option_map (λ live. live.variables)
        (find (λ live. is_instance address number live.instance) instances.now) }
{
    instances
        .iter()
        .find(|live| live.instance.is_at(address, number))
        .map(|live| live.variables)
}

impl Equipment {
    /// What is on a bus before any frame.
    pub(crate) fn new(
        alloc: Global,
        gears: &[Gear],
        memory: Vec<MemoryByte>,
        instances: &[InputInstance],
    ) -> Result<Self, AllocError>
        ensures { IfOk result (λ e. IsEquipmentOf
            (record { gears = gears.now; memory = memory.items; instances = instances.now }) [] e) }
    {
        let gears = live_gears(alloc, gears)?;
        let instances = live_instances(alloc, instances)?;
        Ok(Equipment {
            gears,
            memory,
            instances,
            device_dtr0: 0,
            begun: None,
        })
    }

    /// What is answered to a frame.
    pub(crate) fn reply(&self, frame: &Frame) -> Reply
        ensures { (setup : Setup) (earlier : List Sent) → IsEquipmentOf setup earlier self.now
            → result ≡ answer_of setup earlier frame.now }
    {
        match frame {
            Frame::Forward16(frame) => {
                gears_reply(
                    self.gears.as_slice(),
                    self.memory.as_slice(),
                    &frame.fields(),
                )
            }
            Frame::Forward24(frame) => instances_reply(self.instances.as_slice(), &frame.fields()),
        }
    }

    /// A frame was sent, and this became of it.
    pub(crate) fn see(&mut self, frame: &Frame, mark: Mark)
        ensures { (setup : Setup) (earlier : List Sent) (s : Sent) → s.frame ≡ frame.now
            → s.mark ≡ mark
            → IsEquipmentOf setup earlier self.old → IsEquipmentOf setup (s ∷ earlier) self.new }
    {
        if is_reached(mark) {
            self.take(frame);
        } else {
            self.miss();
        }
    }

    /// The variables of the gear at a short address, where there is gear.
    pub(crate) fn gear(&self, address: ShortAddress) -> Option<GearVariables>
        ensures { (setup : Setup) (earlier : List Sent) → IsEquipmentOf setup earlier self.now
            → result ≡ variables_at setup earlier address }
    {
        gear_in(self.gears.as_slice(), address)
    }

    /// The variables of an instance of a control device, where it is declared.
    pub(crate) fn instance(
        &self,
        address: ShortAddress,
        number: InstanceNumber,
    ) -> Option<InstanceVariables>
        ensures { (setup : Setup) (earlier : List Sent) → IsEquipmentOf setup earlier self.now
            → result ≡ instance_variables_at setup earlier address number }
    {
        instance_in(self.instances.as_slice(), address, number)
    }

    /// A frame reached the bus.
    fn take(&mut self, frame: &Frame)
        ensures { (setup : Setup) (earlier : List Sent) (s : Sent) → IsReachedBy frame.now s
            → IsEquipmentOf setup earlier self.old → IsEquipmentOf setup (s ∷ earlier) self.new }
    {
        let is_pair = is_begun(&self.begun, frame);
        self.begun = begun_after(is_pair, frame);
        match frame {
            Frame::Forward16(frame) => self.take_gear_fields(&frame.fields(), is_pair),
            Frame::Forward24(frame) => self.take_device_fields(&frame.fields(), is_pair),
        }
    }

    fn take_gear_fields(&mut self, fields: &Fields16, is_pair: bool)
        ensures { IsAfterGearFields is_pair fields.now self.old self.new }
    {
        gears_take(self.gears.as_mut_slice(), fields, is_pair);
    }

    fn take_device_fields(&mut self, fields: &Fields24, is_pair: bool)
        ensures { IsAfterDeviceFields is_pair fields.now self.old self.new }
    {
        let dtr0 = self.device_dtr0;
        instances_take(self.instances.as_mut_slice(), dtr0, fields, is_pair);
        self.device_dtr0 = dtr0_after(dtr0, fields);
    }

    /// A frame was lost, or the bus interface failed at it: nobody saw it, and it ends a begun
    /// pair.
    fn miss(&mut self)
        ensures { (setup : Setup) (earlier : List Sent) (s : Sent) → IsMissedBy s
            → IsEquipmentOf setup earlier self.old → IsEquipmentOf setup (s ∷ earlier) self.new }
    {
        self.begun = None;
    }
}

/// DTR0 of the control devices after a frame that says this.
fn dtr0_after(dtr0: u8, fields: &Fields24) -> u8
    ensures { result ≡ dtr0_after_fields fields.now dtr0 }
{
    match fields {
        Fields24::Dtr0 { value } => *value,
        Fields24::Event | Fields24::Command { .. } | Fields24::OtherCommand => dtr0,
    }
}

/// Whether a frame with this mark reached the bus.
fn is_reached(mark: Mark) -> bool
    ensures { result ≡ is_reached mark }
{
    match mark {
        Mark::Quiet | Mark::Answer(_) | Mark::Damaged => true,
        Mark::Lost | Mark::Failed => false,
    }
}
