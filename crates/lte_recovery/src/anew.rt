// Recovery by a new authentication.
ghost use Rattle.std.specs.Prelude.{List};
ghost use Rattle.std.specs.List.{AllByRecursion as AllOf};
ghost use Rattle.lte_events.specs.Ranges.{IsEvent, IsSetup};
ghost use Rattle.lte_events.specs.declared.events.Event.{Event};
ghost use Rattle.lte_events.specs.declared.setups.Setup.{Setup};
ghost use Rattle.lte_recovery.specs.InRuns.{Restarts};
ghost use Rattle.lte_recovery.specs.Octets.{RestartsInOctets};

/// Where phone and core use no NAS context together, or no COUNT of it is left: after an authentication with a new KASME
/// and a Security Mode, whose two messages arrive, the seven events of a reconnection lead to one key. These are eleven
/// events. Phone and station have the KeNB of the new KASME and of COUNT 1.
///
/// TS 24.301 5.4.3, TS 33.401 6.1.1 and 7.2.4.4.
pub fn a_new_authentication_restores_agreement()
    ensures terms { (setup : Setup) (events : List Event) → IsSetup setup → AllOf IsEvent events → Restarts setup events }
    ensures octets { (setup : Setup) (events : List Event) → IsSetup setup → AllOf IsEvent events → RestartsInOctets setup events }
{}
