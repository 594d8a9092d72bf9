// Who can derive which key, in every run of the written machine.

ghost use Rattle.std.specs.Prelude.{ℕ, Bool, List, Option};
ghost use Rattle.lte_events.specs.declared.events.Event.{Event};
ghost use Rattle.lte_events.specs.declared.setups.Setup.{Setup};
ghost use Rattle.key_model.specs.Term.{Term};
ghost use Rattle.key_model.specs.HandoverTable.{NumberedKey};
ghost use Rattle.s1x2_rec.specs.Fields.{Fields};
ghost use Rattle.lte_machine.specs.Ciphers.{Ciphers};
ghost use Rattle.lte_machine.specs.Machines.{machine_over, opening_by_octets};
ghost use Rattle.lte_properties.specs.Separation.{SeparationHolds, GivingHolds};

/// After every list of events, from every setup: no station ever held a KASME; the core gave each KeNB
/// and each NH to one station; a set of stations with neither the one to which the core gave the key of
/// a chain nor the one of a cell cannot derive KeNB* of that key for that cell, from all that they held
/// at any time of the run together; and a set of stations can derive a key that anybody held exactly
/// where one of them held it, or held a key from which it comes by KeNB* steps and, for an algorithm
/// key, one step of A.7; every key of the run was held by somebody, and each station held the keys that
/// it has (TS 33.401 7.2.8.4 and Annex A).
///
/// It holds for any ciphers and any writing of S1 and X2, whichever test says that two keys are one:
/// where records open by their senders' uses, as in the written machine (`by_uses`), and where octets
/// open by themselves (`by_octets`); also after a coincidence.
pub fn separation_holds_in_every_run()
    ensures by_uses { (same : Term → Term → Bool) (c : Ciphers Term)
        (between : Fields → Option (NumberedKey Term ℕ) → List ℕ) (setup : Setup) (events : List Event)
        → SeparationHolds (machine_over same c between) setup events }
    ensures by_octets { (same : Term → Term → Bool) (c : Ciphers Term)
        (between : Fields → Option (NumberedKey Term ℕ) → List ℕ) (setup : Setup) (events : List Event)
        → SeparationHolds (opening_by_octets same c between) setup events }
{}

/// After every list of events, from every setup: where a station made KeNB* of a key of a chain for an
/// air address, by an attempt of a handover, the core gave that key to the source of the attempt where
/// the source made KeNB*, over X2 or within the station, and to the target over S1; an attempt number of
/// a station is of one attempt (TS 33.401 7.2.8.4.1 to 7.2.8.4.3).
pub fn keys_are_given_as_tried_in_every_run()
    ensures by_uses { (same : Term → Term → Bool) (c : Ciphers Term)
        (between : Fields → Option (NumberedKey Term ℕ) → List ℕ) (setup : Setup) (events : List Event)
        → GivingHolds (machine_over same c between) setup events }
    ensures by_octets { (same : Term → Term → Bool) (c : Ciphers Term)
        (between : Fields → Option (NumberedKey Term ℕ) → List ℕ) (setup : Setup) (events : List Event)
        → GivingHolds (opening_by_octets same c between) setup events }
{}
