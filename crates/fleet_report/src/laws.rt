// What holds of the phones of a fleet.
ghost use Rattle.std.specs.Prelude.{ℕ, List, All};
ghost use Rattle.lte_events.specs.Ranges.{IsEvent, IsSetup};
ghost use Rattle.lte_events.specs.declared.events.Event.{Event};
ghost use Rattle.lte_events.specs.declared.setups.Setup.{Setup};
ghost use Rattle.fleet_report.specs.Events.{IsOfPhone};
ghost use Rattle.fleet_report.specs.Promises.{Holds};

/// Whatever happens to the phones of a fleet, the headline holds of each phone's own events. And if no
/// coincidence ends the report, what it says of a phone is the report of a system of that phone's own events; no
/// key, COUNT, bearer and direction repeats, in one phone or in two; and no key from a phone's root can be derived
/// from what stations hold for the other phones.
pub fn no_phone_sees_another()
    ensures { (setup : Setup) (phones : ℕ) (events : List (ℕ × Event)) → IsSetup setup → All (IsOfPhone phones) events →
        All (λ x. IsEvent x.1) events → Holds setup phones events }
{}
