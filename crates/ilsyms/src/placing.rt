//! Where the names of well-named texts have their places.

ghost use Rattle.wordlines.specs.Wirings.{Wiring};
ghost use Rattle.ilsource.specs.SourceTrees.{Tree};
ghost use Rattle.ilsyms.specs.Faults.{IsWellNamed};
ghost use Rattle.ilsyms.specs.Placed.{HavePlaces};

/// In a text without a fault of names each name in a line has exactly the place at which what it
/// means stands, and two names of a task have one place exactly where they mean one thing.
pub fn names_have_places()
    ensures places { (tree : Tree) (wiring : Wiring) → IsWellNamed tree wiring → HavePlaces tree }
{}
