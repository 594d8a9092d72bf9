// Packets that open to what was sent.
ghost use Rattle.std.specs.Prelude.{ℕ, List};
ghost use Rattle.std.specs.List.{AllByRecursion as AllOf};
ghost use Rattle.lte_events.specs.Ranges.{IsEvent, IsSetup};
ghost use Rattle.lte_events.specs.declared.events.Event.{Event};
ghost use Rattle.lte_events.specs.declared.setups.Setup.{Setup};
ghost use Rattle.key_model.specs.Term.{Term};
ghost use Rattle.lte_machine.specs.Ciphers.{annex_b};
ghost use Rattle.lte_machine.specs.Machines.{written_machine};
ghost use Rattle.lte_machine.specs.Standing.{RunsTo};
ghost use Rattle.lte_machine.specs.Wire.{Outgoing};
ghost use Rattle.lte_machine.specs.World.{World};
ghost use Rattle.lte_properties.specs.Packets.{OpensToSent};

/// In every run of the written machine with the algorithms of TS 33.401 Annex B that has met no
/// coincidence, a packet that was sent, and comes with the octets sent to a receiver that is ready for
/// it and in whose window its COUNT is, is taken and opens to the data that were sent. Packets are user
/// packets, RRC data and NAS data. A window has 32 COUNTs on an SRB, 4,096 on a DRB and 256 on NAS,
/// from the next one expected (TS 36.323 5.1.2 and 6.3.5, TS 24.301 4.4.3.1).
pub fn packets_open_to_what_was_sent_in_every_run()
    ensures { (setup : Setup) (events : List Event) (w : World Term ℕ (Outgoing Term ℕ)) →
        IsSetup setup → AllOf IsEvent events → RunsTo annex_b setup events w → OpensToSent (written_machine annex_b) w }
{}
