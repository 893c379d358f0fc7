//! The faults of a binding.

ghost use Rattle.std.specs.Prelude.{codes};

use crate::binding::Binding;
use crate::{FileKind, LineFault};

/// Why bytes are no binding.
pub type BindFault = LineFault<Binding>;

impl FileKind for Binding {
    ghost word = { codes "bind" };

    fn word() -> &'static str {
        "bind"
    }
}
