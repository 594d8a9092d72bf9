// The headline of every setup and events.
ghost use Rattle.std.specs.Prelude.{List};
ghost use Rattle.std.specs.List.{AllByRecursion as AllOf};
ghost use Rattle.lte_events.specs.Ranges.{IsEvent, IsSetup};
ghost use Rattle.lte_events.specs.declared.events.Event.{Event};
ghost use Rattle.lte_events.specs.declared.setups.Setup.{Setup};
ghost use Rattle.lte_properties.specs.Headline.{Headline};

/// The headline holds of every setup and every list of events: whatever is delivered, lost, repeated, late,
/// skipped or injected. The report is the value of the written machine's run. In that run a phone that
/// obeys a handover command fewer than eight chain steps ahead shares the target's key; intact packets in
/// a ready receiver's COUNT window open to what was sent; no key, COUNT, bearer and direction repeats; and
/// stations other than source and target cannot derive a shared vertical key. A coincidence ends the run,
/// and all this holds of the steps before it.
///
/// It requires only that setup and events are in range, as those of a scenario are.
pub fn the_headline_holds()
    ensures ranges { (setup : Setup) (events : List Event) → IsSetup setup → AllOf IsEvent events → Headline setup events }
{}
