// What the lines of a run tell of keys.
ghost use Rattle.std.specs.Prelude.{ℕ, List};
ghost use Rattle.std.specs.List.{AllByRecursion as AllOf};
ghost use Rattle.lte_events.specs.Ranges.{IsEvent, IsSetup};
ghost use Rattle.lte_events.specs.declared.events.Event.{Event};
ghost use Rattle.lte_events.specs.declared.setups.Setup.{Setup};
ghost use Rattle.key_model.specs.Term.{Term};
ghost use Rattle.lte_machine.specs.Ciphers.{annex_b};
ghost use Rattle.lte_machine.specs.Machines.{written_machine};
ghost use Rattle.lte_machine.specs.Run.{first_world};
ghost use Rattle.lte_machine.specs.Standing.{RunsTo};
ghost use Rattle.lte_machine.specs.Wire.{Outgoing};
ghost use Rattle.lte_machine.specs.World.{World};
ghost use Rattle.lte_properties.specs.Agreement.{CompletedLines, KeysTold};

/// In every run of the written machine with the algorithms of TS 33.401 Annex B:
///
/// - each key that a station makes for an air address, and each key that the phone takes, is told in
///   the line of its event, with its NCC; a line of the phone that tells a key is that of an event at
///   which it took that key, and one of a station that tells a key as given is that of an event at which
///   it made that key (`told`);
/// - where the run has met no coincidence, and a line tells that a handover or a change of the key
///   completed, there is a station of its number, which has a context with the key that it tells, and
///   the phone had taken that key at the context's air address (`completed`).
///
/// TS 33.401 7.2.8.4.
pub fn lines_tell_the_keys_in_every_run()
    ensures told { (setup : Setup) (events : List Event) →
        KeysTold (written_machine annex_b) (first_world setup) events }
    ensures completed { (setup : Setup) (events : List Event) (w : World Term ℕ (Outgoing Term ℕ)) →
        IsSetup setup → AllOf IsEvent events → RunsTo annex_b setup events w →
        CompletedLines (written_machine annex_b) (first_world setup) events }
{}
