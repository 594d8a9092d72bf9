// Forward and backward security in every run.
ghost use Rattle.std.specs.Prelude.{List};
ghost use Rattle.std.specs.List.{AllByRecursion as AllOf};
ghost use Rattle.lte_events.specs.Ranges.{IsEvent, IsSetup};
ghost use Rattle.lte_events.specs.declared.events.Event.{Event};
ghost use Rattle.lte_events.specs.declared.setups.Setup.{Setup};
ghost use Rattle.lte_hops.specs.Hops.{Hops};

/// In every run, up to its first coincidence, at each obeyed handover command fewer than eight steps ahead by which the
/// phone took KeNB* of a key of a chain: over S1 no station but the target can compute that key, so the source of this
/// handover can not (`one_hop`); over X2 none but source and target, so the source of the handover before can not
/// (`two_hops`). And of every key that anybody held, a station can compute it only where it held it, or a key from which
/// it comes by KeNB* steps, so none that was used before it came (`backward`). TS 33.401 3.1.
pub fn keys_are_secure_forward_and_backward()
    ensures { (setup : Setup) (events : List Event) → IsSetup setup → AllOf IsEvent events → Hops setup events }
{}
