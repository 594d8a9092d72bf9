// Who shares the key of a handover.
ghost use Rattle.std.specs.Prelude.{ℕ, List};
ghost use Rattle.std.specs.List.{AllByRecursion as AllOf};
ghost use Rattle.lte_events.specs.Ranges.{IsEvent, IsSetup};
ghost use Rattle.lte_events.specs.declared.events.Event.{Event};
ghost use Rattle.lte_events.specs.declared.setups.Setup.{Setup};
ghost use Rattle.key_model.specs.Term.{Term};
ghost use Rattle.lte_machine.specs.Ciphers.{annex_b};
ghost use Rattle.lte_machine.specs.Standing.{RunsTo};
ghost use Rattle.lte_machine.specs.Wire.{Outgoing};
ghost use Rattle.lte_machine.specs.World.{World};
ghost use Rattle.lte_properties.specs.SharedKeys.{SharedApart};

/// In every run of the written machine with the algorithms of TS 33.401 Annex B that has met no
/// coincidence, at each obeyed handover command fewer than eight steps ahead by which the phone took
/// KeNB* of a key of a chain: the cell is the target's own; the core gave the key of the chain to the
/// source in an X2 or intra-station handover, and to the target in an S1 handover; and the other
/// stations together (in an S1 handover all except the target) cannot derive that KeNB* from all that
/// they held at any time of the run. TS 33.401 7.2.8.4.1 to 7.2.8.4.3.
pub fn only_source_and_target_share_the_key_in_every_run()
    ensures { (setup : Setup) (events : List Event) (w : World Term ℕ (Outgoing Term ℕ)) →
        IsSetup setup → AllOf IsEvent events → RunsTo annex_b setup events w → SharedApart setup.cells w }
{}
