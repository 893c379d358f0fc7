//! The values that a building keeps.

ghost use Rattle.std.specs.Prelude.{◌≡◌, ◌≤◌, IfOk, length};
ghost use Rattle.std.specs.List.{AllZip};
ghost use Rattle.limits.specs.Limits.{most_bytes};
ghost use Rattle.ilplan.specs.Beginnings.{HasEach};
ghost use Rattle.livekeep.specs.Printed.{printed_file};

use ilblocks::BlockState;
use ilplan::TaskState;
use iltypes::Value;
use limits::MOST_BYTES;
use livekeep::{KeptAt, KeptValue, kept_file, kept_values};
use plant::Plant;
use std::alloc::Global;
use std::io;
use std::io::ErrorKind;

/// The seconds after which the file is written again though no value changed, so that its date
/// tells whether values were kept until lately.
const RENEWED: u64 = 3600;

/// What was kept last, and when.
#[derive(Drop)]
pub(crate) struct Keeper {
    at: KeptAt,
    values: Vec<KeptValue>,
}

impl Keeper {
    /// Nothing was kept.
    pub(crate) fn new(alloc: Global) -> Keeper {
        Keeper {
            at: KeptAt { date: 0, moment: 0 },
            values: Vec::new(alloc),
        }
    }

    /// The file of the values that a plant has at this date and moment. Where none changed since
    /// they were kept, within the last hour, and no TON counts time meanwhile, it is the file of
    /// then; but not where it is the last one.
    ///
    /// # Errors
    ///
    /// The allocator is out of memory, or the file would be too long to be read.
    pub(crate) fn bytes(
        &mut self,
        alloc: Global,
        at: KeptAt,
        plant: &Plant,
        is_last: bool,
    ) -> io::Result<Vec<u8>> {
        let values = values_of(alloc, plant)?;
        if is_last
            || !is_within_hour(self.at.date, at.date)
            || !are_same(&self.values, &values)
            || counts_time(alloc, plant)?
        {
            self.at = at;
            self.values = values;
        }
        kept_bytes(alloc, self.at, &self.values)
    }
}

/// Whether a TON of a plant counts time: what it keeps stays the same until its next call, while
/// the moment goes on.
///
/// # Errors
///
/// The allocator is out of memory.
fn counts_time(alloc: Global, plant: &Plant) -> io::Result<bool> {
    let plan = plant.setup().plan();
    for task in 0..plan.tasks() {
        let state = plant.task_state(alloc, task)?;
        for (block, kept) in plan.task(task).blocks().iter().zip(state.blocks()) {
            if block.kind.keeps_start() && is_counting(kept) {
                return Ok(true);
            }
        }
    }
    Ok(false)
}

/// Whether a TON counts time: IN was TRUE at its last call, and Q is not.
fn is_counting(ton: &BlockState) -> bool {
    /// The place of Q among its ports.
    const Q: usize = 2;
    ton.before() && !matches!(ton.ports().get(Q), Some(Value::Bool(true)))
}

/// Whether a date, in seconds, is one of the hour up to another one.
fn is_within_hour(before: u64, now: u64) -> bool {
    before <= now && now - before < RENEWED
}

/// Whether these are the same values, one after another.
fn are_same(values: &[KeptValue], others: &[KeptValue]) -> bool {
    if values.len() != others.len() {
        return false;
    }
    for (value, other) in values.iter().zip(others) {
        if value.value() != other.value() {
            return false;
        }
    }
    true
}

/// The values of a plant that are kept.
///
/// # Errors
///
/// The allocator is out of memory.
fn values_of(alloc: Global, plant: &Plant) -> io::Result<Vec<KeptValue>> {
    let globals = globals_of(alloc, plant)?;
    let tasks = tasks_of(alloc, plant)?;
    Ok(kept_values(alloc, plant.setup().plan(), &globals, &tasks)?)
}

/// The values of a plant's global variables.
fn globals_of(alloc: Global, plant: &Plant) -> io::Result<Vec<Value>>
    ensures { IfOk result (λ values.
        length values.items ≡ length plant.now.plant.plan.globals) }
{
    let mut values = Vec::new(alloc);
    for global in 0..plant.setup().plan().globals() {
        values.push(plant.value(global))?;
    }
    Ok(values)
}

/// What lasts of a plant's tasks.
fn tasks_of(alloc: Global, plant: &Plant) -> io::Result<Vec<TaskState>>
    ensures { IfOk result (λ tasks. AllZip HasEach plant.now.plant.plan.tasks tasks.items) }
{
    let mut tasks = Vec::new(alloc);
    for task in 0..plant.setup().plan().tasks() {
        tasks.push(plant.task_state(alloc, task)?)?;
    }
    Ok(tasks)
}

/// The file of these values, which were kept then.
///
/// # Errors
///
/// The allocator is out of memory, or the file would be too long to be read.
fn kept_bytes(alloc: Global, at: KeptAt, values: &[KeptValue]) -> io::Result<Vec<u8>>
    ensures file { IfOk result (λ bytes. bytes.items ≡ printed_file at values.now) }
    ensures short { IfOk result (λ bytes. length bytes.items ≤ most_bytes) }
{
    let bytes = kept_file(alloc, at, values)?;
    if bytes.len() > MOST_BYTES {
        return Err(io::Error::from(ErrorKind::FileTooLarge));
    }
    Ok(bytes)
}
