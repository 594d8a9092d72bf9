// What holds of a run in octets.
ghost use Rattle.std.specs.Prelude.{ℕ, List};
ghost use Rattle.std.specs.List.{AllByRecursion as AllOf};
ghost use Rattle.lte_events.specs.Ranges.{IsEvent, IsSetup};
ghost use Rattle.lte_events.specs.declared.events.Event.{Event};
ghost use Rattle.lte_events.specs.declared.setups.Setup.{Setup};
ghost use Rattle.lte_machine.specs.ByEvent.{IsValueOfRun};
ghost use Rattle.lte_machine.specs.Machines.{Kept};
ghost use Rattle.lte_machine.specs.World.{World};
ghost use Rattle.lte_properties.specs.Agreement.{JoinedAgree};
ghost use Rattle.lte_properties.specs.Freshness.{NoUseTwice};
ghost use Rattle.lte_properties.specs.InOctets.{NoKasmeHeld, BringsPacket, TellsText, FarNeverThere};

/// In each world in octets that is the value of a run which goes on, with the algorithms of TS 33.401
/// Annex B:
///
/// - no key of 32 octets, COUNT, BEARER and DIRECTION comes twice among its uses (`uses`);
/// - where the phone is connected at a station and air address, and the station's context has that air
///   address, both have one KeNB, NCC, algorithms and keys of the access stratum, in octets (`joined`);
/// - no station ever held the octets of a KASME of the run (`no_kasme`).
///
/// And at a step of a run that brings a packet, as it was sent, to a receiver that is ready for it, with a
/// COUNT in its window, the report in octets tells that it is done, and the text that was sent (`packet`).
///
/// Where the phone obeyed an order eight or more chain steps ahead, of a handover or of a change of the key, no
/// context of the station has that air address in any world of the run, before the order or after it (`far`).
pub fn runs_in_octets_keep_what_terms_do()
    ensures uses { (setup : Setup) (events : List Event) (u : World (List ℕ) ℕ Kept) →
        IsValueOfRun setup events u → NoUseTwice u.uses }
    ensures joined { (setup : Setup) (events : List Event) (u : World (List ℕ) ℕ Kept) →
        IsValueOfRun setup events u → IsSetup setup → AllOf IsEvent events → JoinedAgree u }
    ensures no_kasme { (setup : Setup) (events : List Event) (u : World (List ℕ) ℕ Kept) →
        IsValueOfRun setup events u → NoKasmeHeld u }
    ensures packet { (setup : Setup) (events : List Event) → IsSetup setup → AllOf IsEvent events →
        (k : ℕ) (sent : List ℕ) → BringsPacket setup events k sent → TellsText setup events k sent }
    ensures far { (setup : Setup) (events : List Event) → IsSetup setup → AllOf IsEvent events → FarNeverThere setup events }
{}
