//! What is kept of block instances, and what they begin with.

ghost use Rattle.std.specs.Prelude.{◌≡◌, ◌++◌, ◌∷◌, ◌≤◌, [], IfOk, OnOk, option_map};
ghost use Rattle.ilblocks.specs.Ports.{ports_of};
ghost use Rattle.livekeep.specs.KeptFiles.{entry_of};
ghost use Rattle.livekeep.specs.KeptBlocks.{block_entries, block_first, block_name, block_taken};
ghost use Rattle.livekeep.specs.KeptBlocks.{kept_block, kept_last, kept_port, kept_ports};
ghost use Rattle.livekeep.specs.KeptBlocks.{kept_start, kept_state, moments, part_name};
ghost use Rattle.livekeep.specs.KeptBlocks.{port_entries, start_entries};

use crate::first_values::{kept_value, own_name};
use crate::kept::Kept;
use crate::value::KeptValue;
use ilblocks::{BlockKind, BlockState, Port};
use ilplan::{FunctionBlock, Plan};
use iltypes::{IlType, Range, Value};
use std::alloc::{AllocError, Global};

/// The greatest moment that is kept, in milliseconds.
const MOST_MOMENT: u64 = 9_223_372_036_854_775_807;

/// The name of a block instance, as it is kept: `light.rest`.
fn block_name(alloc: Global, text: &[u8], block: FunctionBlock) -> Result<Vec<u8>, AllocError>
    ensures { IfOk result (λ name. name.items ≡ block_name text.now block) }
{
    own_name(alloc, text, block.instance, block.name)
}

/// The name of a part of a block instance, as it is kept: `light.rest.IN`.
fn part_name(alloc: Global, block: &[u8], part: &[u8]) -> Result<Vec<u8>, AllocError>
    ensures { IfOk result (λ name. name.items ≡ part_name block.now part.now) }
{
    let mut name = Vec::from_slice(alloc, block)?;
    name.extend_from_slice(b".")?;
    name.extend_from_slice(part)?;
    Ok(name)
}

// ---- what instances begin with

/// What a block instance begins with: all that was kept of it, else what it has before its first
/// call.
pub(crate) fn block_first(
    alloc: Global,
    plan: &Plan,
    kept: &Kept,
    block: FunctionBlock,
) -> Result<BlockState, AllocError>
    ensures { IfOk result (λ state. state ≡ block_first plan.now kept.now.values block) }
{
    match kept_block(alloc, plan, kept, block)? {
        Some(state) => Ok(state),
        None => Ok(BlockState::at_first(block.kind)),
    }
}

/// All that was kept of a block instance; none where a part was not kept, or is not of its type.
fn kept_block(
    alloc: Global,
    plan: &Plan,
    kept: &Kept,
    block: FunctionBlock,
) -> Result<Option<BlockState>, AllocError>
    ensures { IfOk result (λ state. state ≡ kept_block plan.now kept.now.values block) }
{
    let name = block_name(alloc, plan.text(), block)?;
    kept_state(alloc, kept, plan.buses(), &name, block.kind)
}

/// All that was kept of an instance of this name and kind, on the given number of buses; none where
/// a part was not kept, or is not of its type.
fn kept_state(
    alloc: Global,
    kept: &Kept,
    buses: u8,
    name: &[u8],
    kind: BlockKind,
) -> Result<Option<BlockState>, AllocError>
    requires { 1 ≤ buses }
    ensures { IfOk result (λ state. state ≡ kept_state kept.now.values buses name.now kind) }
{
    let Some(ports) = kept_ports(alloc, kept, buses, name, kind)? else {
        return Ok(None);
    };
    let Some(last) = kept_last(alloc, kept, name)? else {
        return Ok(None);
    };
    let Some(start) = kept_start(alloc, kept, name, kind)? else {
        return Ok(None);
    };
    Ok(Some(BlockState::new(&ports, last, start)))
}

/// The kept value of each port of a kind, where each has one of its type.
fn kept_ports(
    alloc: Global,
    kept: &Kept,
    buses: u8,
    name: &[u8],
    kind: BlockKind,
) -> Result<Option<Vec<Value>>, AllocError>
    requires { 1 ≤ buses }
    ensures { IfOk result (λ ports. option_map (λ values. values.items) ports
        ≡ kept_ports kept.now.values buses name.now (ports_of kind)) }
{
    let mut ports = Vec::new(alloc);
    for port in kind.ports() {
        let Some(value) = kept_port(alloc, kept, buses, name, *port)? else {
            return Ok(None);
        };
        ports.push(value)?;
    }
    Ok(Some(ports))
}

/// The kept value of a port, where it is one of the port's type.
fn kept_port(
    alloc: Global,
    kept: &Kept,
    buses: u8,
    name: &[u8],
    port: Port,
) -> Result<Option<Value>, AllocError>
    requires { 1 ≤ buses }
    ensures { IfOk result (λ value. value ≡ kept_port kept.now.values buses name.now port) }
{
    let part = part_name(alloc, name, port.name.spelling())?;
    Ok(kept_value(kept, &part, port.values.il_type(buses)))
}

/// The first input as it was at the last call, where it was kept.
fn kept_last(alloc: Global, kept: &Kept, name: &[u8]) -> Result<Option<bool>, AllocError>
    ensures { IfOk result (λ last. last ≡ kept_last kept.now.values name.now) }
{
    let part = part_name(alloc, name, b"last")?;
    match kept_value(kept, &part, IlType::Bool) {
        Some(Value::Bool(last)) => Ok(Some(last)),
        Some(Value::Int(_)) => Ok(Some(false)),
        None => Ok(None),
    }
}

/// The moment at which the first input became TRUE, where it was kept; 0 of a kind that has none.
fn kept_start(
    alloc: Global,
    kept: &Kept,
    name: &[u8],
    kind: BlockKind,
) -> Result<Option<u64>, AllocError>
    ensures { IfOk result (λ start. start ≡ kept_start kept.now.values name.now kind) }
{
    if !kind.keeps_start() {
        return Ok(Some(0));
    }
    let part = part_name(alloc, name, b"start")?;
    match kept_value(kept, &part, moments()) {
        Some(Value::Int(start)) => Ok(Some(start.max(0) as u64)),
        Some(Value::Bool(_)) => Ok(Some(0)),
        None => Ok(None),
    }
}

/// The type of moments, in milliseconds.
fn moments() -> IlType
    ensures { result ≡ moments }
{
    IlType::Int(Range {
        lo: 0,
        hi: MOST_MOMENT as i64,
    })
}

// ---- what is kept of instances

/// Keeps what a block instance has: its ports, its first input as it was at the last call, and the
/// start, of a kind that has one.
pub(crate) fn keep_block(
    alloc: Global,
    kept: &mut Vec<KeptValue>,
    text: &[u8],
    block: FunctionBlock,
    state: &BlockState,
) -> Result<(), AllocError>
    ensures { OnOk result (kept.new.items
        ≡ kept.old.items ++ block_entries text.now block state.now) }
{
    let name = block_name(alloc, text, block)?;
    keep_ports(alloc, kept, &name, block.kind, state.ports())?;
    keep_part(alloc, kept, &name, b"last", Value::Bool(state.before()))?;
    keep_start(alloc, kept, &name, block.kind, state.start())
}

/// Keeps these values of the ports of a kind.
fn keep_ports(
    alloc: Global,
    kept: &mut Vec<KeptValue>,
    name: &[u8],
    kind: BlockKind,
    values: &[Value],
) -> Result<(), AllocError>
    ensures { OnOk result (kept.new.items
        ≡ kept.old.items ++ port_entries name.now (ports_of kind) values.now) }
{
    let ports = kind.ports();
    for i in 0..ports.len().min(values.len()) {
        keep_part(alloc, kept, name, ports[i].name.spelling(), values[i])?;
    }
    Ok(())
}

/// Keeps the moment at which the first input became TRUE, of a kind that has one.
fn keep_start(
    alloc: Global,
    kept: &mut Vec<KeptValue>,
    name: &[u8],
    kind: BlockKind,
    start: u64,
) -> Result<(), AllocError>
    ensures { OnOk result (kept.new.items
        ≡ kept.old.items ++ start_entries name.now kind start) }
{
    if !kind.keeps_start() {
        return Ok(());
    }
    let start = start.min(MOST_MOMENT) as i64;
    keep_part(alloc, kept, name, b"start", Value::Int(start))
}

/// Keeps this value of a part of an instance.
fn keep_part(
    alloc: Global,
    kept: &mut Vec<KeptValue>,
    name: &[u8],
    part: &[u8],
    value: Value,
) -> Result<(), AllocError>
    ensures { OnOk result (kept.new.items
        ≡ kept.old.items ++ entry_of (part_name name.now part.now) value ∷ []) }
{
    let part = part_name(alloc, name, part)?;
    kept.push(KeptValue::new(alloc, &part, value)?)?;
    Ok(())
}

// ---- of what was kept that with which an instance begins

/// Adds that with which a block instance begins.
pub(crate) fn take_block(
    alloc: Global,
    taken: &mut Vec<KeptValue>,
    plan: &Plan,
    kept: &Kept,
    block: FunctionBlock,
) -> Result<(), AllocError>
    ensures { OnOk result (taken.new.items
        ≡ taken.old.items ++ block_taken plan.now kept.now.values block) }
{
    match kept_block(alloc, plan, kept, block)? {
        Some(state) => keep_block(alloc, taken, plan.text(), block, &state),
        None => Ok(()),
    }
}
