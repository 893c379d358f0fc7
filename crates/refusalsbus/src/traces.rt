//! Lists that contracts alone see.

ghost use Rattle.std.specs.Prelude.{◌≡◌, [], ◌∷◌};

use ghosts::Trace;

/// `push_leaves_the_list`: what was pushed was not in the list.
pub fn pushed_items_are_listed(first: u8, second: u8) -> Trace<u8>
    ensures { result.items ≡ second ∷ first ∷ [] }
{
    let mut trace = Trace::new();
    trace.push(&first);
    trace.push(&second);
    trace
}
