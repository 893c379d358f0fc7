//! Block instances of a program.

use ilblocks::BlockKind;
use ilsource::Name;

/// A function block instance of a program (IEC 61131-3, 2.5.2.2).
#[derive(Clone, Copy)]
pub struct DeclaredBlock {
    /// The name in its declaration.
    pub name: Name,
    pub kind: BlockKind,
}
