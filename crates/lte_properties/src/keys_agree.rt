// Agreement of phone and stations on keys.
ghost use Rattle.std.specs.Prelude.{ℕ, List};
ghost use Rattle.std.specs.List.{AllByRecursion as AllOf};
ghost use Rattle.lte_events.specs.Ranges.{IsEvent, IsSetup};
ghost use Rattle.lte_events.specs.declared.events.Event.{Event};
ghost use Rattle.lte_events.specs.declared.setups.Setup.{Setup};
ghost use Rattle.key_model.specs.Term.{Term};
ghost use Rattle.lte_machine.specs.Ciphers.{annex_b};
ghost use Rattle.lte_machine.specs.Machines.{written_machine};
ghost use Rattle.lte_machine.specs.Run.{first_world};
ghost use Rattle.lte_machine.specs.Standing.{RunsTo};
ghost use Rattle.lte_machine.specs.Wire.{Outgoing};
ghost use Rattle.lte_machine.specs.World.{World};
ghost use Rattle.lte_properties.specs.Agreement.{Agrees, NoneEver};

/// In every run of the written machine with the algorithms of TS 33.401 Annex B that has met no
/// coincidence, for every setup and every order of deliveries, losses, repeats and injected octets:
///
/// - a station makes one thing for an air address, and an attempt of a source gives one at most;
/// - when the security of a connection starts, the phone takes the key, number and algorithms that the
///   station made for the context at that air address, by no handover;
/// - at each obeyed handover command what is there came by an attempt of the station where the phone
///   was connected, and its chain number is not below the phone's. Fewer than eight steps ahead the
///   phone takes the key, number and algorithms that the target made, and at eight or more another key
///   and another number;
/// - at each obeyed change of the key what is there was made when the phone's key was to change. Where
///   that was from the phone's authentication, the phone takes it; a change that was made from another
///   authentication counts as eight, and the phone takes another key;
/// - within a connection number the phone's keys grow, and for each air address it takes at most one;
/// - a connection of the phone has the key, number and algorithms that the phone took last, and is at
///   the station and air address where it took them;
/// - wherever the phone is connected at a station and air address, and the station's context has that
///   air address, both have one key, one chain number and the same algorithms;
/// - a preparation of a station has the key, number and algorithms that the station made for its air
///   address;
/// - a context that came by a handover or a change of the key has a key that the phone had taken at its air address
///   (`agree`);
/// - where the key differs, eight or more steps ahead, no context of any world of the run has that air
///   address (`far`).
///
/// TS 33.401 7.2.8.4.4, 7.2.9.2.
pub fn phone_and_target_agree_in_every_run()
    ensures agree { (setup : Setup) (events : List Event) (w : World Term ℕ (Outgoing Term ℕ)) →
        IsSetup setup → AllOf IsEvent events → RunsTo annex_b setup events w → Agrees w }
    ensures far { (setup : Setup) (events : List Event) (w : World Term ℕ (Outgoing Term ℕ)) →
        IsSetup setup → AllOf IsEvent events → RunsTo annex_b setup events w →
        NoneEver (written_machine annex_b) (first_world setup) events }
{}
