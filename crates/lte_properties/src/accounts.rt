// What the lists of a run account for.
ghost use Rattle.std.specs.Prelude.{ℕ, Bool, List, Option};
ghost use Rattle.lte_events.specs.declared.events.Event.{Event};
ghost use Rattle.lte_events.specs.declared.setups.Setup.{Setup};
ghost use Rattle.key_model.specs.Term.{Term};
ghost use Rattle.key_model.specs.HandoverTable.{NumberedKey};
ghost use Rattle.s1x2_rec.specs.Fields.{Fields};
ghost use Rattle.lte_machine.specs.Ciphers.{Ciphers};
ghost use Rattle.lte_machine.specs.Machines.{machine_over, opening_by_octets};
ghost use Rattle.lte_machine.specs.Run.{first_world, run};
ghost use Rattle.lte_machine.specs.World.{Machine};
ghost use Rattle.lte_properties.specs.Accounts.{UsesAreThoseSent, HoldersGain};

/// After every list of events, from every setup, the uses of the world are those of the records sent,
/// record by record in their order: of each its ciphering and then its integrity use (TS 33.401 B.1.1,
/// B.2.1). So what is said of all uses is said of all that was sent.
///
/// It holds for any ciphers and any writing of S1 and X2, whichever test says that two keys are one,
/// and by both ways of opening; also after a coincidence.
pub fn uses_are_those_of_the_records_sent()
    ensures by_uses { (same : Term → Term → Bool) (c : Ciphers Term)
        (between : Fields → Option (NumberedKey Term ℕ) → List ℕ) (setup : Setup) (events : List Event)
        → UsesAreThoseSent (run (machine_over same c between) (first_world setup) events) }
    ensures by_octets { (same : Term → Term → Bool) (c : Ciphers Term)
        (between : Fields → Option (NumberedKey Term ℕ) → List ℕ) (setup : Setup) (events : List Event)
        → UsesAreThoseSent (run (opening_by_octets same c between) (first_world setup) events) }
{}

/// At each event of every list, from every setup, the holders gain exactly these: the actor of the event,
/// or phone and core at an authentication, with the key in the record that came to it, also where it then
/// refuses the record, and with each root and key that was derived. An event that reaches nobody adds
/// none. It holds for every machine: for keys as terms and in octets.
pub fn holders_derived_or_received_each_key<K, C, S>()
    ensures { (m : Machine K C S) (setup : Setup) (events : List Event) → HoldersGain m (first_world setup) events }
{}
