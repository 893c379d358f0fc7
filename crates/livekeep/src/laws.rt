//! What is so of every file of kept values.

ghost use Rattle.std.specs.Prelude.{◌≡◌, ◌++◌, ◌∷◌, ◌≢◌, ◌<◌, ℕ, List, Some};
ghost use Rattle.iltypes.specs.declared.value.Value.{Value as ValueOf};
ghost use Rattle.ilblocks.specs.Stores.{Lasting};
ghost use Rattle.ilplan.specs.Beginnings.{plan_with};
ghost use Rattle.ilplan.specs.Plans.{Planned};
ghost use Rattle.livekeep.specs.CheckSums.{sum_of};
ghost use Rattle.livekeep.specs.KeptFiles.{IsKeptFile, IsSummed, KeptEntry, state_of, sum_line};
ghost use Rattle.livekeep.specs.KeptPlans.{begun_plan};
ghost use Rattle.livekeep.specs.KeptStates.{entries_of};
ghost use Rattle.livekeep.specs.Printed.{AreKeepable, printed_file};
ghost use Rattle.livekeep.specs.Returns.{MayComeBack};
ghost use Rattle.livekeep.specs.declared.kept_at.KeptAt.{KeptAt};

/// What is written is what is read: the file that is made of values is one of these values.
pub fn a_written_file_is_one()
    ensures { (at : KeptAt) (values : List KeptEntry) → AreKeepable at values
        → IsKeptFile (printed_file at values) (state_of (Some at) values) }
{}

/// What is kept comes back: the plan that begins with what is kept of some values and instances
/// begins with just these. So does a building that begins with the file that it wrote.
pub fn entries_come_back()
    ensures { (plan : Planned) (globals : List ValueOf) (lasting : List Lasting)
        → MayComeBack plan globals lasting
        → begun_plan (entries_of plan globals lasting) plan ≡ plan_with plan globals lasting }
{}

/// One changed byte changes the check sum.
pub fn a_changed_byte_changes_the_sum()
    ensures { (front back : List ℕ) (byte other : ℕ) → byte < 256 → other < 256 → byte ≢ other
        → sum_of (front ++ byte ∷ back) ≢ sum_of (front ++ other ∷ back) }
{}

/// Where one byte before the line of the check sum is another, the check sum is not that of the
/// bytes, so that they are no file.
pub fn a_changed_byte_breaks_the_seal()
    ensures { (front back : List ℕ) (byte other sum : ℕ) → byte < 256 → other < 256 → byte ≢ other
        → IsSummed (front ++ byte ∷ (back ++ sum_line sum)) sum
        → ¬ IsSummed (front ++ other ∷ (back ++ sum_line sum)) sum }
{}
