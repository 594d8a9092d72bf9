// One chain of keys for each connection number.
ghost use Rattle.std.specs.Prelude.{ℕ, List};
ghost use Rattle.std.specs.List.{AllByRecursion as AllOf};
ghost use Rattle.lte_events.specs.Ranges.{IsEvent, IsSetup};
ghost use Rattle.lte_events.specs.declared.events.Event.{Event};
ghost use Rattle.lte_events.specs.declared.setups.Setup.{Setup};
ghost use Rattle.key_model.specs.Term.{Term};
ghost use Rattle.lte_machine.specs.Ciphers.{annex_b};
ghost use Rattle.lte_machine.specs.Machines.{written_machine};
ghost use Rattle.lte_machine.specs.Standing.{RunsTo};
ghost use Rattle.lte_machine.specs.Wire.{Outgoing};
ghost use Rattle.lte_machine.specs.World.{World};
ghost use Rattle.lte_properties.specs.Chains.{ChainsHold};

/// In every run of the written machine with the algorithms of TS 33.401 Annex B that has met no
/// coincidence:
///
/// - each connection number has one KASME and one NAS COUNT, so that one KeNB begins its chain. The
///   core's key, what stations made, tried and hold for that number, and the keys in records on S1 and
///   X2 are keys of that chain, or come from them by KeNB* steps, and have their numbers;
/// - the core's chain number for it, or its last one, is not below any of them;
/// - what a station makes by the setup of a context is that KeNB; by an attempt, whose target it is,
///   KeNB* for the attempt's cell, of the key of the attempt's context or of the NH of its number; by a
///   change of the key, KeNB* of the KeNB of the connection's KASME and COUNT 0 for the cell of the
///   context, in place of a key that the phone had taken at that station;
/// - an attempt, and a change of the key, belong to the context under whose key they were opened;
/// - each key that the phone took has the number of its place on the chain of the phone's KASME. It
///   belongs to the connection for which its air address was drawn, except at a change of the key that
///   was made from another authentication; its number does not pass the core's.
///
/// A change of the key begins the next number. TS 33.401 7.2.8.1.1, 7.2.9.2.
pub fn connections_have_one_chain_in_every_run()
    ensures { (setup : Setup) (events : List Event) (w : World Term ℕ (Outgoing Term ℕ)) →
        IsSetup setup → AllOf IsEvent events → RunsTo annex_b setup events w →
        ChainsHold (written_machine annex_b) setup events }
{}
