// What a refused step leaves.
ghost use Rattle.std.specs.Prelude.{◌≡◌, ◌≢◌};
ghost use Rattle.lte_events.specs.declared.answers.Answer.TheVariants.{Done};
ghost use Rattle.key_model.specs.Reading.{Reading};
ghost use Rattle.lte_machine.specs.Opening.{Outcome};
ghost use Rattle.lte_machine.specs.PhoneState.{Phone, PhoneInput};
ghost use Rattle.lte_machine.specs.PhoneStep.{phone_step, after_refusal, IsReject};
ghost use Rattle.lte_machine.specs.StationState.{Station, StationInput};
ghost use Rattle.lte_machine.specs.StationStep.{station_step};
ghost use Rattle.lte_machine.specs.CoreState.{Core, CoreInput};
ghost use Rattle.lte_machine.specs.CoreStep.{core_step};

/// A refused step leaves the phone as it was, except for the uplink NAS COUNT of a SECURITY MODE REJECT
/// that it sends under a context (TS 24.301 5.4.3.5), and sends nothing except such a Reject. This holds
/// in every reading of keys and chain numbers, for every input and outcome of its opening.
pub fn refused_phone_step<K, C>()
    ensures state { (r : Reading K C) (s : Phone K C) (i : PhoneInput K) (outcome : Outcome) →
        (phone_step r s i outcome).1.answer ≢ Done →
        (phone_step r s i outcome).0 ≡ after_refusal (phone_step r s i outcome).1.sent s }
    ensures sends { (r : Reading K C) (s : Phone K C) (i : PhoneInput K) (outcome : Outcome) →
        (phone_step r s i outcome).1.answer ≢ Done → IsReject (phone_step r s i outcome).1.sent }
{}

/// A refused step leaves a station as it was.
pub fn refused_station_step<K, C>()
    ensures { (r : Reading K C) (s : Station K C) (i : StationInput K C) (outcome : Outcome) →
        (station_step r s i outcome).1.answer ≢ Done → (station_step r s i outcome).0 ≡ s }
{}

/// A refused step leaves the core as it was.
pub fn refused_core_step<K, C>()
    ensures { (r : Reading K C) (s : Core K C) (i : CoreInput K C) (outcome : Outcome) →
        (core_step r s i outcome).1.answer ≢ Done → (core_step r s i outcome).0 ≡ s }
{}
