// The rows of the program's ladder and those of a run.
ghost use Rattle.std.specs.Prelude.{◌≡◌, ℕ, List, [], ◌∷◌, ◌++◌, Result, Some};
ghost use Rattle.std.specs.Str.{bytes_eq};
ghost use Rattle.std.specs.List.{AllByRecursion as AllOf};
ghost use Rattle.lte_events.specs.Ranges.{IsEvent, IsSetup};
ghost use Rattle.lte_events.specs.declared.events.Event.{Event};
ghost use Rattle.lte_events.specs.declared.setups.Setup.{Setup};
ghost use Rattle.key_model.specs.Derivation.{Derivation, derived_of};
ghost use Rattle.key_terms.specs.declared.ladder.LadderFault.{LadderFault};
ghost use Rattle.key_terms.specs.declared.row.LadderRow.{LadderRow};
ghost use Rattle.key_terms.specs.declared.row.Row.{Row};
ghost use Rattle.key_terms.specs.Ladder.{holding, row_of};
ghost use Rattle.lte_machine.specs.BothRuns.{octet_run};
ghost use Rattle.lte_machine.specs.Ciphers.{annex_b};
ghost use Rattle.lte_machine.specs.Ladder.{RowOrigin, OfRoot, Of, add_row, root_row};
ghost use Rattle.lte_machine.specs.Machines.{Kept, machine_in_octets};
ghost use Rattle.lte_machine.specs.Run.{Running};
ghost use Rattle.lte_machine.specs.World.{World, Holding, happens};
ghost use Rattle.store_laws.specs.Additions.{CanKeep};
ghost use Rattle.store_laws.specs.Joins.{HasRow, Keeps, Adds, ComesTo, Roots, RootComesTo};
ghost use Rattle.store_laws.specs.Rows.{numbered, holder_of};

/// Where the program's ladder has the rows of the machine's and notes its holders, it does the same
/// with one more: a derivation whose key has a row becomes a row, or is one already, or clashes with
/// one, in both (`derivation`); so does a root, or it is repeated (`root`); and a holder that is noted in
/// the row of a key is one more holder of that key (`holder`).
pub fn ladders_go_together()
    ensures derivation { (os : List (RowOrigin (List ℕ))) (held : List (Holding (List ℕ))) (before after : List LadderRow) →
        Keeps os held before → (d : Derivation (List ℕ)) → HasRow (numbered os) d.key →
        (result : Result Row LadderFault) → Adds before after (derived_of d) result →
        ComesTo (add_row bytes_eq os (Of d)).clash (Of d) (add_row bytes_eq os (Of d)).rows held after result }
    ensures root { (os : List (RowOrigin (List ℕ))) (held : List (Holding (List ℕ))) (before after : List LadderRow) →
        Keeps os held before → (key : List ℕ) → (result : Result Row LadderFault) → Roots before after key result →
        RootComesTo (root_row bytes_eq key os) (add_row bytes_eq os (OfRoot key)).clash (OfRoot key)
        (add_row bytes_eq os (OfRoot key)).rows held after result }
    ensures holder { (os : List (RowOrigin (List ℕ))) (held : List (Holding (List ℕ))) (before after : List LadderRow) →
        Keeps os held before → (h : Holding (List ℕ)) (n : ℕ) → row_of before h.key ≡ Some n →
        after ≡ holding (holder_of h.holder) n before → Keeps os (held ++ h ∷ []) after }
{}

/// In every run each derivation has what a ladder asks of one that is added, beside room for it: its key
/// has a row, which for KeNB and NH is a root's, its SYNC-input has a row, and what came out is the KDF of
/// both (TS 33.401 A.3 to A.7); and each key that was held has a row. It holds of every world of a run
/// that has met no coincidence (`world`), and of what the next event makes of it, also where that is a
/// coincidence (`event`).
pub fn derivations_of_a_run_can_be_added()
    ensures world { (setup : Setup) (events : List Event) (w : World (List ℕ) ℕ Kept) →
        IsSetup setup → AllOf IsEvent events → octet_run setup events ≡ Running w → CanKeep w }
    ensures event { (setup : Setup) (events : List Event) (w : World (List ℕ) ℕ Kept) →
        IsSetup setup → AllOf IsEvent events → octet_run setup events ≡ Running w → (event : Event) → IsEvent event →
        CanKeep (happens (machine_in_octets annex_b) w event).0 }
{}
