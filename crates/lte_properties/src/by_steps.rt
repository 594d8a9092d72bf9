// Agreement step by step, as a program tells a line for each step.
ghost use Rattle.std.specs.Prelude.{◌≡◌, ℕ, List};
ghost use Rattle.std.specs.List.{AllByRecursion as AllOf};
ghost use Rattle.lte_events.specs.Ranges.{IsEvent, IsSetup};
ghost use Rattle.lte_events.specs.declared.events.Event.{Event};
ghost use Rattle.lte_events.specs.declared.lines.Who.{Who};
ghost use Rattle.lte_events.specs.declared.setups.Setup.{Setup};
ghost use Rattle.key_model.specs.Term.{Term};
ghost use Rattle.lte_machine.specs.ByEvent.{IsStep};
ghost use Rattle.lte_machine.specs.Reply.{Made, Took};
ghost use Rattle.lte_machine.specs.Wire.{Outgoing};
ghost use Rattle.lte_machine.specs.World.{World, Line};
ghost use Rattle.lte_properties.specs.Agreement.{Reported, MadeIsTold, TookIsTold, TellsNote};
ghost use Rattle.lte_properties.specs.BySteps.{MakesAt, TakesAt, Follows};

/// At each step of a run of the written machine with the algorithms of TS 33.401 Annex B:
///
/// - what a station makes for an air address, and what the phone takes, is told in the line of that step,
///   a line of the phone that tells a key is that of a step at which it took it, and one of a station
///   that tells a key as given is that of a step at which it made it (`told`, `makes`, `takes`);
/// - what the phone takes was made for that air address at an earlier step. Fewer than eight steps ahead
///   the lines of both steps tell one key with one NCC (`follows`);
/// - where the line of a step tells that a handover or a change of the key completed, there is a station
///   of its number whose context has that key, and the phone had taken it there (`completed`).
///
/// TS 33.401 7.2.8.4.
pub fn each_step_of_a_run_agrees()
    ensures told { (setup : Setup) (events : List Event) (k : ℕ) (w : World Term ℕ (Outgoing Term ℕ)) (e : Event)
        (u : World Term ℕ (Outgoing Term ℕ)) (line : Line Term) →
        IsStep setup events k w e u line → MadeIsTold w u line × TookIsTold w u line }
    ensures makes { (setup : Setup) (events : List Event) (k : ℕ) (m : Made Term ℕ) (line : Line Term) →
        MakesAt setup events k m line → Reported line (Who.Station m.station) m.key m.number }
    ensures takes { (setup : Setup) (events : List Event) (k : ℕ) (x : Took Term ℕ) (line : Line Term) →
        TakesAt setup events k x line → Reported line Who.Phone x.key x.number }
    ensures follows { (setup : Setup) (events : List Event) → IsSetup setup → AllOf IsEvent events →
        (k : ℕ) (x : Took Term ℕ) (line : Line Term) → TakesAt setup events k x line → Follows setup events k x line }
    ensures completed { (setup : Setup) (events : List Event) → IsSetup setup → AllOf IsEvent events →
        (k : ℕ) (w : World Term ℕ (Outgoing Term ℕ)) (e : Event) (u : World Term ℕ (Outgoing Term ℕ)) (line : Line Term) →
        IsStep setup events k w e u line → TellsNote u line.who line.note }
{}
