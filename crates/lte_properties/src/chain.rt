// The chain numbers in every run of the written machine.

ghost use Rattle.std.specs.Prelude.{ℕ, Bool, List, Option};
ghost use Rattle.lte_events.specs.declared.events.Event.{Event};
ghost use Rattle.lte_events.specs.declared.setups.Setup.{Setup};
ghost use Rattle.key_model.specs.Term.{Term};
ghost use Rattle.key_model.specs.HandoverTable.{NumberedKey};
ghost use Rattle.s1x2_rec.specs.Fields.{Fields};
ghost use Rattle.lte_machine.specs.Ciphers.{Ciphers};
ghost use Rattle.lte_machine.specs.Machines.{machine_over, opening_by_octets};
ghost use Rattle.lte_properties.specs.ChainHolds.{ChainNumbersHold};

/// After every list of events, from every setup: the chain number that the core has for a connection,
/// or had last where it has ended, is at or above each number of that connection at the core, at the
/// stations and in flight; a pair of NH and NCC that a context has stored, or has moved into its
/// attempt, is above the number of its KeNB; and the answer to a path switch request that can still
/// be accepted is of the context's connection and above each of its numbers (TS 33.401 7.2.8.4).
///
/// It holds for any ciphers and any writing of S1 and X2, whichever test says that two keys are one:
/// where records open by their senders' uses, as in the written machine (`by_uses`), and where octets
/// open by themselves (`by_octets`); also after a coincidence.
pub fn chain_numbers_hold_in_every_run()
    ensures by_uses { (same : Term → Term → Bool) (c : Ciphers Term)
        (between : Fields → Option (NumberedKey Term ℕ) → List ℕ) (setup : Setup) (events : List Event)
        → ChainNumbersHold (machine_over same c between) setup events }
    ensures by_octets { (same : Term → Term → Bool) (c : Ciphers Term)
        (between : Fields → Option (NumberedKey Term ℕ) → List ℕ) (setup : Setup) (events : List Event)
        → ChainNumbersHold (opening_by_octets same c between) setup events }
{}
