//! Files of kept values, as they are written.

ghost use Rattle.std.specs.Prelude.{◌≡◌, ◌++◌, flat_map, length, IfOk, OnOk};
ghost use Rattle.livekeep.specs.Printed.{entry_line, end_line, head_line, printed_file};
ghost use Rattle.livekeep.specs.Printed.{printed_lines};
ghost use Rattle.livekeep.specs.CheckSums.{sum_of};
ghost use Rattle.livekeep.specs.KeptFiles.{sum_line};

use crate::kept_at::KeptAt;
use crate::sum::sum_of;
use crate::value::KeptValue;
use std::alloc::{AllocError, Global};

/// The file of these values, which were kept then. [`crate::Kept::parse`] reads it back.
///
/// # Errors
///
/// The allocator is out of memory.
pub fn kept_file(alloc: Global, at: KeptAt, values: &[KeptValue]) -> Result<Vec<u8>, AllocError>
    ensures { IfOk result (λ file. file.items ≡ printed_file at values.now) }
{
    let mut file = kept_lines(alloc, at, values)?;
    let sum = sum_of(&file);
    let line = format!(in alloc; "sum {sum}\n")?;
    file.extend_from_slice(line.as_bytes())?;
    Ok(file)
}

/// All lines of the file but that of the check sum.
fn kept_lines(alloc: Global, at: KeptAt, values: &[KeptValue]) -> Result<Vec<u8>, AllocError>
    ensures { IfOk result (λ lines. lines.items ≡ printed_lines at values.now) }
{
    let mut lines = Vec::new(alloc);
    let head = format!(in alloc;
        "kept by dalictl live at {} moment {}\n",
        at.date, at.moment
    )?;
    lines.extend_from_slice(head.as_bytes())?;
    add_values(alloc, &mut lines, values)?;
    let end = format!(in alloc; "end {}\n", values.len())?;
    lines.extend_from_slice(end.as_bytes())?;
    Ok(lines)
}

/// Adds the lines of values.
fn add_values(alloc: Global, lines: &mut Vec<u8>, values: &[KeptValue]) -> Result<(), AllocError>
    ensures { OnOk result (lines.new.items ≡ lines.old.items ++ flat_map entry_line values.now) }
{
    for value in values {
        add_value(alloc, lines, value)?;
    }
    Ok(())
}

/// Adds the line of a value.
fn add_value(alloc: Global, lines: &mut Vec<u8>, value: &KeptValue) -> Result<(), AllocError>
    ensures { OnOk result (lines.new.items ≡ lines.old.items ++ entry_line value.now) }
{
    let said = format!(in alloc; " = {}\n", value.value())?;
    lines.extend_from_slice(value.name())?;
    lines.extend_from_slice(said.as_bytes())?;
    Ok(())
}
