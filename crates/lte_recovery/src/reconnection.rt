// Recovery by a new connection.
ghost use Rattle.std.specs.Prelude.{List};
ghost use Rattle.std.specs.List.{AllByRecursion as AllOf};
ghost use Rattle.lte_events.specs.Ranges.{IsEvent, IsSetup};
ghost use Rattle.lte_events.specs.declared.events.Event.{Event};
ghost use Rattle.lte_events.specs.declared.setups.Setup.{Setup};
ghost use Rattle.lte_recovery.specs.InRuns.{Reconnects};
ghost use Rattle.lte_recovery.specs.Octets.{ReconnectsInOctets};

/// After every list of events, whatever was delivered, lost, late or repeated, also where the keys of phone and station
/// differ: where phone and core use one NAS context with a COUNT left, and the station of a cell has a number left and
/// an algorithm of the phone's capabilities, seven events lead back to one key. The phone goes idle and asks, the core sets
/// up a connection in the cell, and the four records between arrive as they are sent. Then phone and station have the
/// KeNB of the KASME and of the COUNT of the Service Request, both are active, and the core's connection is there. A
/// coincidence in these events ends the run instead.
///
/// TS 24.301 5.6.1, TS 33.401 7.2.6.2 and 7.2.8.1.1.
pub fn a_reconnection_restores_agreement()
    ensures terms { (setup : Setup) (events : List Event) → IsSetup setup → AllOf IsEvent events → Reconnects setup events }
    ensures octets { (setup : Setup) (events : List Event) → IsSetup setup → AllOf IsEvent events → ReconnectsInOctets setup events }
{}
