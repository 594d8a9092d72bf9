// What comes of KASMEs, and of nothing.
ghost use Rattle.std.specs.Prelude.{List};
ghost use Rattle.lte_events.specs.declared.events.Event.{Event};
ghost use Rattle.lte_events.specs.declared.setups.Setup.{Setup};
ghost use Rattle.lte_hops.specs.Kasmes.{AllMadeAlike, KasmesGiveAll, NothingGivesNone};

/// Whoever holds nothing computes no key. There is no perfect forward secrecy: whoever learns the KASMEs computes every
/// key, also those that were used before. And two algorithm keys of a run with the same octets are of one type and
/// identity, and come from one key: no octets serve two purposes. TS 33.401 6.2 and A.7.
pub fn every_key_comes_of_its_kasme()
    ensures nothing { NothingGivesNone }
    ensures all { KasmesGiveAll }
    ensures alike { (setup : Setup) (events : List Event) → AllMadeAlike setup events }
{}
