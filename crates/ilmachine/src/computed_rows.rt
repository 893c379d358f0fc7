//! The definitions on a worked image: each clause is one, proved by computing it.

ghost use Rattle.std.specs.Prelude.{◌≡◌, ◌∷◌, [], true, Some, None};
ghost use Rattle.iltypes.specs.declared.value.Value.TheVariants.{Bool as truth};
ghost use Rattle.ilmachine.specs.Images.{Global, Own, layout_of, value_of, variable_in, written_in};
ghost use Rattle.ilmachine.specs.Images.{value_under, own_types};
ghost use Rattle.ilmachine.specs.Rows.{house, calling, level, lamp_twice, whole};

/// What stands under a variable.
fn values()
    ensures button { value_of house (Global 0) ≡ Some (truth true) }
    ensures lamp { value_of house (Global 1) ≡ Some (whole 254) }
    ensures no_global { value_of house (Global 2) ≡ None }
    ensures own { value_of house (Own 0 0) ≡ Some (whole 7) }
    ensures no_own { value_of house (Own 0 1) ≡ None }
    ensures of_another_task { value_of house (Own 1 0) ≡ Some (truth true) }
    ensures no_task { value_of house (Own 2 0) ≡ None }
{}

/// Which variable stands in a slot: first the globals, in the task's order, then its own.
fn slots()
    ensures lamp { variable_in (layout_of house) 0 0 ≡ Some (Global 1) }
    ensures button { variable_in (layout_of house) 0 1 ≡ Some (Global 0) }
    ensures own { variable_in (layout_of house) 0 2 ≡ Some (Own 0 0) }
    ensures of_another_task { variable_in (layout_of house) 1 0 ≡ Some (Global 1) }
    ensures own_of_another { variable_in (layout_of house) 1 1 ≡ Some (Own 1 0) }
    ensures no_task { variable_in (layout_of house) 2 0 ≡ None }
{}

/// The types of a task's own variables: the slots of a function that its code has are none.
fn function_slots()
    ensures own { own_types calling ≡ level ∷ [] }
{}

/// What a scan writes from a slot: the lamp by the first task alone, the button by none, and each
/// task's own variables.
fn writes()
    ensures lamp { written_in (layout_of house) 0 0 ≡ Some (Global 1) }
    ensures button { written_in (layout_of house) 0 1 ≡ None }
    ensures own { written_in (layout_of house) 0 2 ≡ Some (Own 0 0) }
    ensures only_read { written_in (layout_of house) 1 0 ≡ None }
    ensures own_of_another { written_in (layout_of house) 1 1 ≡ Some (Own 1 0) }
    ensures no_task { written_in (layout_of house) 2 0 ≡ None }
{}

/// What stands under a variable where the lamp is overridden twice: the last value counts.
fn overrides()
    ensures last { value_under lamp_twice house (Global 1) ≡ Some (whole 5) }
    ensures button { value_under lamp_twice house (Global 0) ≡ Some (truth true) }
    ensures own { value_under lamp_twice house (Own 0 0) ≡ Some (whole 7) }
    ensures of_another_task { value_under lamp_twice house (Own 1 0) ≡ Some (truth true) }
{}
