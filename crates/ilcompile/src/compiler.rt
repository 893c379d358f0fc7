//! From plans to code: each instance's lines one after another, as words, and then the functions.

ghost use Rattle.std.specs.Prelude.{◌≡◌, ◌≤◌, ◌<◌, All, length, map, is_some, slice_get};
ghost use Rattle.std.specs.Prelude.{[], IfOk, IfSome};
ghost use Rattle.limits.specs.Limits.{most_buses, most_bytes, most_calls, most_functions};
ghost use Rattle.ilplan.specs.Functions.{depths_from};
ghost use Rattle.ilplan.specs.PlanMeaning.{plan_scan};
ghost use Rattle.ilplan.specs.Plans.{AreFunctions, KeepsLimits, used_functions};
ghost use Rattle.ilcompile.specs.Layout.{laid_out};
ghost use Rattle.ilcompile.specs.Loaded.{listing_for, scan_of};
ghost use Rattle.ilcompile.specs.Meant.{IsMeant};

use crate::bodies::{bodies, placed, push_bodies, push_types};
use crate::lines::line_numbers;
use crate::numbers::CodeNumbers;
use crate::words::words;
use ilblocks::BlockKind;
use ilcode::{Code, pack};
use ilplan::{FunctionBlock, Plan, Slot, Task, UserFunction};
use iltypes::IlType;
use std::alloc::{AllocError, Global};

/// The code of a task: its instances' words in order, with a start for each instance, and behind
/// them those of the functions that it uses; the constants in order of first use, the variables as
/// slots, and the kinds of the block instances.
///
/// # Errors
///
/// The allocator is out of memory.
pub fn compile(alloc: Global, plan: &Plan, task: usize) -> Result<Code, AllocError>
    requires { task < length plan.now.tasks }
    ensures layout { IfOk result (λ code. IfSome (slice_get plan.now.tasks task)
        (λ t. code ≡ listing_for plan.now t)) }
    // The runs of the code are the scans of the task, both ways.
    ensures meaning { IfOk result (λ code. IfSome (slice_get plan.now.tasks task)
        (λ t. IsMeant (scan_of plan.now t) code)) }
{
    let used = plan.used_functions(alloc, task)?;
    let functions = plan.functions();
    lay_out(
        alloc,
        plan.buses(),
        plan.text(),
        functions,
        &used,
        plan.task(task),
    )
}

/// The code of a task on this many buses, whose places are those of `text`, with the functions that
/// it uses.
fn lay_out(
    alloc: Global,
    buses: u8,
    text: &[u8],
    functions: &[UserFunction],
    used: &[bool],
    task: &Task,
) -> Result<Code, AllocError>
    requires first { 1 ≤ buses }
    requires last { buses ≤ most_buses }
    requires short { length text.now ≤ most_bytes }
    requires few { length functions.now ≤ most_functions }
    requires bodies { AreFunctions [] functions.now }
    requires depths { All (λ depth. depth ≤ most_calls) (depths_from [] functions.now) }
    requires limits { KeepsLimits functions.now task.now }
    requires used { used.now ≡ map is_some (used_functions functions.now task.now) }
    ensures layout { IfOk result (λ code. code ≡ laid_out buses text.now functions.now task.now) }
    ensures meaning { IfOk result
        (λ code. IsMeant (plan_scan buses functions.now task.now) code) }
{
    let own = task.slots().len();
    let placed = placed(alloc, own as u16, functions, used)?;
    let numbers = CodeNumbers::new(task.constants(), 0, &placed);
    let (starts, mut words) = words(alloc, &numbers, task.instances())?;
    let bodies = bodies(alloc, words.len(), own, functions, used)?;
    push_bodies(
        alloc,
        &mut words,
        task.constants(),
        &placed,
        own as u16,
        functions,
        used,
    )?;
    let constants = Vec::from_slice(alloc, task.constants().as_slice())?;
    let mut slots = slot_types(alloc, task.slots())?;
    push_types(&mut slots, functions, used)?;
    let kinds = block_kinds(alloc, task.blocks())?;
    let words = pack(alloc, &words)?;
    let lines = line_numbers(alloc, text, task.instances(), functions, used)?;
    Ok(Code::new(buses, constants, slots, kinds, starts, words, lines, bodies))
}

/// The types of the slots.
fn slot_types(alloc: Global, slots: &[Slot]) -> Result<Vec<IlType>, AllocError>
    ensures { IfOk result (λ types. types.items ≡ map (λ slot. slot.value_type) slots.now) }
{
    slots.iter().map(|slot| slot.value_type).collect(alloc)
}

/// The kinds of the block instances.
fn block_kinds(alloc: Global, blocks: &[FunctionBlock]) -> Result<Vec<BlockKind>, AllocError>
    ensures { IfOk result (λ kinds. kinds.items ≡ map (λ block. block.kind) blocks.now) }
{
    blocks.iter().map(|block| block.kind).collect(alloc)
}
