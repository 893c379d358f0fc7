//! Externals of a program.

use ilsource::Name;
use iltypes::IlType;

/// A global variable as a program names it in VAR_EXTERNAL (IEC 61131-3, 2.4.3).
#[derive(Clone, Copy)]
pub struct DeclaredExternal {
    /// The name in its declaration, which is that of a global variable.
    pub name: Name,
    /// The type in its declaration, or `None` where that type is at fault.
    pub value_type: Option<IlType>,
}
