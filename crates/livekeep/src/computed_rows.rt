//! The definitions on worked instances: each clause is one, proved by computing it.

ghost use Rattle.std.specs.Prelude.{◌≡◌, ◌∷◌, ◌++◌, [], true, pos, None, Some};
ghost use Rattle.iltypes.specs.declared.value.Value.TheVariants.{Bool as truth, Int as number};
ghost use Rattle.ilblocks.specs.declared.kind.BlockKind.TheVariants.{Ctu, RTrig, Ton};
ghost use Rattle.livekeep.specs.KeptBlocks.{kept_state, state_entries};
ghost use Rattle.livekeep.specs.Rows.{clk, edge, edge_kept, edge_seen, last, q};
ghost use Rattle.livekeep.specs.Rows.{rest, rest_ports, rest_running, rest_start};

/// What an instance begins with: all that was kept of it, or nothing.
fn instances()
    ensures whole { kept_state edge_kept 1 edge RTrig ≡ Some edge_seen }
    ensures half { kept_state (clk (truth true) ∷ q ∷ []) 1 edge RTrig ≡ None }
    ensures of_another_type { kept_state (clk (number (pos 1)) ∷ q ∷ last ∷ []) 1 edge RTrig
        ≡ None }
    ensures of_another_kind { kept_state edge_kept 1 edge Ctu ≡ None }
    ensures of_another { kept_state edge_kept 1 rest RTrig ≡ None }
    ensures timer { kept_state (rest_ports ++ rest_start) 1 rest Ton ≡ Some rest_running }
    ensures no_start { kept_state rest_ports 1 rest Ton ≡ None }
{}

/// What is kept of an instance.
fn entries()
    ensures edge { state_entries edge RTrig edge_seen ≡ clk (truth true) ∷ q ∷ last ∷ [] }
    ensures timer { state_entries rest Ton rest_running ≡ rest_ports ++ rest_start }
{}
