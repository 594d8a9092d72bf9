// The second case of opening a sealed record.
ghost use Rattle.std.specs.Prelude.{ℕ, List};
ghost use Rattle.std.specs.List.{AllByRecursion as AllOf};
ghost use Rattle.lte_events.specs.Ranges.{IsEvent, IsSetup};
ghost use Rattle.lte_events.specs.declared.events.Event.{Event};
ghost use Rattle.lte_events.specs.declared.setups.Setup.{Setup};
ghost use Rattle.key_model.specs.Term.{Term};
ghost use Rattle.lte_machine.specs.Ciphers.{annex_b};
ghost use Rattle.lte_machine.specs.Machines.{written_machine};
ghost use Rattle.lte_machine.specs.Standing.{RunsTo};
ghost use Rattle.lte_machine.specs.Wire.{Outgoing};
ghost use Rattle.lte_machine.specs.World.{World};
ghost use Rattle.lte_properties.specs.SecondCase.{SecondAtStarting};

/// In every run of the written machine with the algorithms of TS 33.401 Annex B that has met no
/// coincidence: whatever event comes next, a record whose sender's integrity use is the one that its
/// receiver expects, but whose ciphering is another, comes only at a station whose context's security is
/// starting. There the octets decide (`open_case`): the station waits for the unciphered Security Mode
/// Complete, and the phone may cipher already. Anywhere else a record that has the expected integrity use
/// has the expected ciphering too, and opens to the text that was sent. TS 33.401 7.2.4.5, TS 36.331
/// 5.3.4.3, TS 24.301 4.4.5.
pub fn the_octets_decide_at_a_starting_station_alone()
    ensures { (setup : Setup) (events : List Event) (w : World Term ℕ (Outgoing Term ℕ)) →
        IsSetup setup → AllOf IsEvent events → RunsTo annex_b setup events w → SecondAtStarting (written_machine annex_b) w }
{}
