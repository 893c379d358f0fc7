//! Laws of the definitions, each by the lemma that crates above cite.

ghost use Rattle.std.specs.Prelude.{◌≡◌, ℕ, ◌+◌, ◌<◌, ◌≤◌, List, [], length, ◌⊎◌};
ghost use Rattle.ilblocks.specs.Stores.{Store, IsStoreOf};
ghost use Rattle.ilcode.specs.Listings.{Listing, IsLawful, IsIn, shape_of};
ghost use Rattle.ilcode.specs.Listings.{end_of, slots_end, body_at};
ghost use Rattle.ilcode.specs.Paths.{Standing, IsPath, IsBound, requests_on};
ghost use Rattle.ilcode.specs.Steps.{Configuration, body_of, start, Runs, IsSafe, Ends, HasEnded};

/// The bodies of a code lie one behind the other, with their words and with their slots, and each
/// word is in one.
fn bodies_lie_in_order()
    ensures rising { (code : Listing) → IsLawful code → (body : ℕ)
        → end_of code body ≤ end_of code (body + 1) }
    ensures within { (code : Listing) → IsLawful code → (body : ℕ)
        → end_of code body ≤ length code.instructions }
    ensures slots_rising { (code : Listing) → IsLawful code → (body : ℕ)
        → slots_end code body ≤ slots_end code (body + 1) }
    ensures slots_within { (code : Listing) → IsLawful code → (body : ℕ)
        → slots_end code body ≤ length code.slots }
    ensures there { (code : Listing) → IsLawful code → (place : ℕ)
        → place < length code.instructions → IsIn code (body_at code place) place }
    ensures one { (code : Listing) → IsLawful code → (body other place : ℕ) → IsIn code body place
        → IsIn code other place → body ≡ other }
{}

/// Control goes forward alone: a run stands before a word of the body that runs, or has ended, and
/// then nothing is open.
fn runs_go_forward()
    ensures within { (code : Listing) (from : Store) (steps : ℕ) (c : Configuration) → IsLawful code
        → Runs code (start from) steps c
        → HasEnded code c ⊎ (c.place < end_of code (body_of c.calls)) }
    ensures closed { (code : Listing) (from : Store) (steps : ℕ) (c : Configuration)
        → Runs code (start from) steps c → HasEnded code c → c.nesting ≡ [] }
{}

/// A run goes along a path, so that it has no more steps than the bound, of which there is one. It
/// makes no more requests than the words of that path may, and its moment stays.
fn runs_go_along_paths()
    ensures path { (code : Listing) (from : Store) (steps : ℕ) (c : Configuration)
        → Runs code (start from) steps c
        → (path : List Standing) × IsPath code path × (length path ≡ steps)
        × (length c.store.requests ≤ length from.requests + requests_on code path) }
    ensures moment { (code : Listing) (from : Store) (steps : ℕ) (c : Configuration)
        → Runs code (start from) steps c → c.store.moment ≡ from.moment }
    ensures few { (code : Listing) (bound : ℕ) (from : Store) (steps : ℕ) (c : Configuration)
        → IsBound code bound → Runs code (start from) steps c → steps ≤ bound }
    ensures one { (code : Listing) (bound other : ℕ) → IsBound code bound → IsBound code other
        → bound ≡ other }
{}

/// Each run of a safe code whose paths have a bound ends; and a run ends after one number of steps,
/// with one store.
fn safe_runs_end_once()
    ensures ends { (code : Listing) (bound : ℕ) (from : Store) → IsSafe code → IsBound code bound
        → IsStoreOf (shape_of code) from → (steps : ℕ) × (to : Store) × Ends code from steps to }
    ensures once { (code : Listing) (from : Store) (steps others : ℕ) (to other : Store)
        → Ends code from steps to → Ends code from others other → (steps ≡ others) × (to ≡ other) }
{}
