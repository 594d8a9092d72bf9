// The ladder of a run, beside the key terms that it was derived by.
ghost use Rattle.std.specs.Prelude.{◌≡◌, ℕ, List};
ghost use Rattle.lte_events.specs.declared.events.Event.{Event};
ghost use Rattle.lte_events.specs.declared.setups.Setup.{Setup};
ghost use Rattle.key_model.specs.Term.{Term};
ghost use Rattle.lte_machine.specs.Wire.{Outgoing};
ghost use Rattle.lte_machine.specs.Ciphers.{Ciphers};
ghost use Rattle.lte_machine.specs.World.{World};
ghost use Rattle.lte_machine.specs.Known.{AllReported};
ghost use Rattle.lte_machine.specs.Standing.{RowsStandForTerms, OctetRowsStand, RunsTo};

/// The rows of the ladder stand for the distinct terms. In every run that has met no coincidence,
/// for every setup, every list of events and any ciphers: the keys of the rows are the distinct
/// terms of the run's roots and derivations (TS 33.401 Annex A), in the order of their first
/// derivation, and two terms with one value are one term (`terms`). In octets the keys of the rows are
/// the values of these terms, in the same order (`octets`).
pub fn rows_stand_for_the_distinct_terms()
    ensures terms { (c : Ciphers (List ℕ)) (setup : Setup) (events : List Event) (w : World Term ℕ (Outgoing Term ℕ)) →
        RunsTo c setup events w → RowsStandForTerms w.history }
    ensures octets { (c : Ciphers (List ℕ)) (setup : Setup) (events : List Event) (w : World Term ℕ (Outgoing Term ℕ)) →
        RunsTo c setup events w → OctetRowsStand w.history }
{}

/// And every key has a row: each key that the phone, a station or the core holds, each key in a record
/// that was sent, and each key of a use, is a root of the run or was derived in a step that reported
/// it.
pub fn every_key_was_reported()
    ensures { (c : Ciphers (List ℕ)) (setup : Setup) (events : List Event) (w : World Term ℕ (Outgoing Term ℕ)) →
        RunsTo c setup events w → AllReported w }
{}
