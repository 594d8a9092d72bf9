// What holds of every run with two cores.
ghost use Rattle.std.specs.Prelude.{ℕ, List};
ghost use Rattle.std.specs.List.{AllByRecursion as AllOf};
ghost use Rattle.lte_events.specs.Ranges.{IsEvent, IsSetup};
ghost use Rattle.lte_events.specs.declared.events.Event.{Event};
ghost use Rattle.lte_events.specs.declared.setups.Setup.{Setup};
ghost use Rattle.core_relocation.specs.Promises.{TwoHeadline};

/// Of every setup, every list of events and however the stations belong to the cores: the headline holds of the events
/// that the system saw, those not answered `NotHere`; the lines are its lines except for steps and cores; no two records
/// that the cores sent to stations carry one NH; and a core acts only if it held the context before the event, or
/// was to get it (TS 33.401 7.2.8.4, TS 36.413 8.4).
pub fn two_cores_keep_the_headline()
    ensures { (setup : Setup) (core_of : List ℕ) (events : List Event) → IsSetup setup → AllOf IsEvent events → TwoHeadline setup core_of events }
{}
