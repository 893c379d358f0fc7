//! The global variable that starts an event task.

ghost use Rattle.std.specs.Prelude.{◌≡◌, unwrap_or};
ghost use Rattle.ilscope.specs.Configured.{global_number};

use crate::scope::Scope;
use ilsource::Name;

/// The number of the global variable of this name, which SINGLE gives; 0 where there is none, which
/// is so in no text without fault.
pub fn trigger_number(scope: &Scope<'_>, trigger: Name) -> usize
    ensures { result ≡ unwrap_or (global_number scope.now.tree trigger) 0 }
{
    scope.global_number(trigger).unwrap_or(0)
}
