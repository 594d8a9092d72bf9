// Freshness of key uses.
ghost use Rattle.std.specs.Prelude.{ℕ, List, map};
ghost use Rattle.lte_events.specs.declared.events.Event.{Event};
ghost use Rattle.lte_events.specs.declared.setups.Setup.{Setup};
ghost use Rattle.key_model.specs.Term.{Term};
ghost use Rattle.key_model.specs.Use.{map_use};
ghost use Rattle.key_model.specs.Value.{value_of};
ghost use Rattle.lte_machine.specs.Ciphers.{annex_b};
ghost use Rattle.lte_machine.specs.Standing.{RunsTo};
ghost use Rattle.lte_machine.specs.Wire.{Outgoing};
ghost use Rattle.lte_machine.specs.World.{World};
ghost use Rattle.lte_properties.specs.Freshness.{NoUseTwice};

/// In every run of the written machine with the algorithms of TS 33.401 Annex B that has met no
/// coincidence, no key, COUNT, BEARER and DIRECTION comes twice among the uses of all records that the
/// phone, the stations and the core sent: as key terms (`terms`), and by the 32 octets of the keys
/// (`octets`). TS 33.401 B.1.1 and B.2.1.
pub fn no_use_comes_twice_in_every_run()
    ensures terms { (setup : Setup) (events : List Event) (w : World Term ℕ (Outgoing Term ℕ)) →
        RunsTo annex_b setup events w → NoUseTwice w.uses }
    ensures octets { (setup : Setup) (events : List Event) (w : World Term ℕ (Outgoing Term ℕ)) →
        RunsTo annex_b setup events w → NoUseTwice (map (map_use value_of) w.uses) }
{}
