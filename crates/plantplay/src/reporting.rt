//! What is reported of names that no variable has.

use crate::naming::is_watchable;
use ilplan::Plan;
use std::io;
use std::io::Write;

/// Reports each name that is watched and that no variable has.
///
/// # Errors
///
/// The writer's.
pub fn report_unwatchable<E: Write>(to: &mut E, plan: &Plan, names: &[&str]) -> io::Result<()> {
    for name in names {
        if !is_watchable(plan, name) {
            writeln!(to, "error: no variable {name}")?;
        }
    }
    Ok(())
}
