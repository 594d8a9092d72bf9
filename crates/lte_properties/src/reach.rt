// To whom records go.
ghost use Rattle.std.specs.Prelude.{ℕ, List, All};
ghost use Rattle.std.specs.List.{AllByRecursion as AllOf};
ghost use Rattle.lte_events.specs.Ranges.{IsEvent, IsSetup};
ghost use Rattle.lte_events.specs.Scenario.{CanHappen};
ghost use Rattle.lte_events.specs.declared.events.Event.{Event};
ghost use Rattle.lte_events.specs.declared.setups.Setup.{Setup};
ghost use Rattle.key_model.specs.Term.{Term};
ghost use Rattle.lte_machine.specs.ByEvent.{IsStep};
ghost use Rattle.lte_machine.specs.Ciphers.{annex_b};
ghost use Rattle.lte_machine.specs.Standing.{RunsTo};
ghost use Rattle.lte_machine.specs.Wire.{Outgoing};
ghost use Rattle.lte_machine.specs.World.{World, Line};
ghost use Rattle.lte_properties.specs.Reach.{AllReach, ReachesActor};

/// In every run of the written machine with the algorithms of TS 33.401 Annex B that has met no
/// coincidence, a record that was sent to a station was sent to one of the setup (`records`). So no event
/// that can happen to the setup comes to a station that it does not have, and the machine's answer for
/// one, NoUe of the network, is never given (`steps`).
pub fn every_event_reaches_an_actor_of_the_setup()
    ensures records { (setup : Setup) (events : List Event) (w : World Term ℕ (Outgoing Term ℕ)) →
        IsSetup setup → AllOf IsEvent events → RunsTo annex_b setup events w → AllReach setup w }
    ensures steps { (setup : Setup) (events : List Event) → IsSetup setup → All (CanHappen setup) events →
        (k : ℕ) (w : World Term ℕ (Outgoing Term ℕ)) (e : Event) (u : World Term ℕ (Outgoing Term ℕ)) (line : Line Term) →
        IsStep setup events k w e u line → ReachesActor line }
{}
