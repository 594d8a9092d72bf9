// The run in octets and the run of the written machine.
ghost use Rattle.std.specs.Prelude.{◌≡◌, List, map};
ghost use Rattle.std.specs.List.{AllByRecursion as AllOf};
ghost use Rattle.lte_events.specs.Ranges.{IsEvent, IsSetup};
ghost use Rattle.lte_events.specs.declared.events.Event.{Event};
ghost use Rattle.lte_events.specs.declared.setups.Setup.{Setup};
ghost use Rattle.lte_machine.specs.BothRuns.{written_run, written_report, octet_run, octet_report};
ghost use Rattle.lte_machine.specs.Carried.{run_value, report_value};
ghost use Rattle.lte_machine.specs.Ciphers.{annex_b};

/// For every setup and every list of events, the run in octets is the value of the run of the
/// written machine: each key by its 32 octets, each chain number by its NCC, each record by its
/// octets (TS 33.401 Annex A and B). Both run to the same coincidence, if there is one.
pub fn run_in_octets_is_the_value()
    ensures { (setup : Setup) (events : List Event) → IsSetup setup → AllOf IsEvent events →
        octet_run setup events ≡ run_value annex_b (written_run setup events) }
{}

/// And what is told of each event in octets is the value of what the written machine tells.
pub fn report_in_octets_is_the_value()
    ensures { (setup : Setup) (events : List Event) → IsSetup setup → AllOf IsEvent events →
        octet_report setup events ≡ map report_value (written_report setup events) }
{}
