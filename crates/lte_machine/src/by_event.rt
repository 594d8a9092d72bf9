// A run event by event, as a program goes that takes one event at a time and tells a line for each.
ghost use Rattle.std.specs.Prelude.{◌≡◌, ℕ, suc, List, [], ◌∷◌, ◌++◌, length, take, slice_get, Option, Some};
ghost use Rattle.std.specs.List.{AllByRecursion as AllOf};
ghost use Rattle.lte_events.specs.Ranges.{IsEvent, IsSetup};
ghost use Rattle.lte_events.specs.declared.events.Event.{Event};
ghost use Rattle.lte_events.specs.declared.setups.Setup.{Setup};
ghost use Rattle.key_model.specs.Term.{Term};
ghost use Rattle.lte_machine.specs.BothRuns.{written_run, written_report, octet_run};
ghost use Rattle.lte_machine.specs.ByEvent.{EndsAt, IsValueOfRun, IsStep, Told, IsOctetStep, IsValueOfStep};
ghost use Rattle.lte_machine.specs.Ciphers.{annex_b};
ghost use Rattle.lte_machine.specs.Machines.{Kept, written_machine};
ghost use Rattle.lte_machine.specs.Opening.{Opening, Outcome};
ghost use Rattle.lte_machine.specs.Run.{RunState, Running, Stopped, turn, replay, event_report, report, Reported};
ghost use Rattle.lte_machine.specs.Tuples.{Coincidence};
ghost use Rattle.lte_machine.specs.Wire.{Outgoing};
ghost use Rattle.lte_machine.specs.World.{Machine, World, Line, happens};

/// A replay of one event more is one turn more (`replay_snoc`), and tells one thing more (`tale_snoc`):
/// one for each event (`told_each`), which is that of the event where the events before it led
/// (`told_at`). Where a run goes on, it went on by each prefix of its events (`prefix`); where it is
/// over, its events have a longest prefix by which it went on, and the event after that prefix is the
/// coincidence with which it is over (`ends`).
///
/// So it is for every machine, in terms and in octets, and every opener of octets.
pub fn a_run_goes_event_by_event<K, C, S>()
    ensures replay_snoc { (by_octets : Opening K → List ℕ → Outcome) (m : Machine K C S) (r : RunState K C S) (events : List Event) (e : Event) →
        replay by_octets m r (events ++ e ∷ []) ≡ turn by_octets m (replay by_octets m r events) e }
    ensures tale_snoc { (by_octets : Opening K → List ℕ → Outcome) (m : Machine K C S) (r : RunState K C S) (events : List Event) (e : Event) →
        report by_octets m r (events ++ e ∷ [])
        ≡ report by_octets m r events ++ event_report by_octets m (replay by_octets m r events) e ∷ [] }
    ensures told_each { (by_octets : Opening K → List ℕ → Outcome) (m : Machine K C S) (r : RunState K C S) (events : List Event) →
        length (report by_octets m r events) ≡ length events }
    ensures told_at { (by_octets : Opening K → List ℕ → Outcome) (m : Machine K C S) (r : RunState K C S) (events : List Event) (k : ℕ) (e : Event) →
        slice_get events k ≡ Some e →
        slice_get (report by_octets m r events) k ≡ Some (event_report by_octets m (replay by_octets m r (take k events)) e) }
    ensures prefix { (by_octets : Opening K → List ℕ → Outcome) (m : Machine K C S) (r : RunState K C S) (events more : List Event) (u : World K C S) →
        replay by_octets m r (events ++ more) ≡ Running u →
        (w : World K C S) × (replay by_octets m r events ≡ Running w) }
    ensures ends { (by_octets : Opening K → List ℕ → Outcome) (m : Machine K C S) (w : World K C S) (events : List Event) (coincidence : Coincidence K) →
        replay by_octets m (Running w) events ≡ Stopped coincidence → EndsAt by_octets m w events coincidence }
{}

/// Where the run in octets goes on, so does the run over terms, and the world in octets is its value: keys
/// by their 32 octets, chain numbers by their NCCs, records by their octets (`written_still`). And each step
/// of it is the value of that step over terms: the worlds before and after it, and its line (`step`).
pub fn the_run_in_octets_goes_on_in_a_value()
    ensures written_still { (setup : Setup) (events : List Event) → IsSetup setup → AllOf IsEvent events →
        (u : World (List ℕ) ℕ Kept) → octet_run setup events ≡ Running u → IsValueOfRun setup events u }
    ensures step { (setup : Setup) (events : List Event) → IsSetup setup → AllOf IsEvent events →
        (k : ℕ) (v : World (List ℕ) ℕ Kept) (e : Event) (u : World (List ℕ) ℕ Kept) (line : Line (List ℕ)) →
        IsOctetStep setup events k v e u line → IsValueOfStep setup events k v e u line }
{}

/// Step k of the written machine's run, from the world after k events: the world after it is that after k + 1
/// events (`after`), world and line are what happens (`happens`), and its line is what the run tells at
/// place k (`line`); a line that the run tells at place k is that of step k (`step`).
pub fn each_line_is_that_of_its_step()
    ensures after { (setup : Setup) (events : List Event) (k : ℕ) (w : World Term ℕ (Outgoing Term ℕ)) (e : Event)
        (u : World Term ℕ (Outgoing Term ℕ)) (line : Line Term) →
        IsStep setup events k w e u line → written_run setup (take (suc k) events) ≡ Running u }
    ensures happens { (setup : Setup) (events : List Event) (k : ℕ) (w : World Term ℕ (Outgoing Term ℕ)) (e : Event)
        (u : World Term ℕ (Outgoing Term ℕ)) (line : Line Term) →
        IsStep setup events k w e u line → (u, line) ≡ happens (written_machine annex_b) w e }
    ensures line { (setup : Setup) (events : List Event) (k : ℕ) (w : World Term ℕ (Outgoing Term ℕ)) (e : Event)
        (u : World Term ℕ (Outgoing Term ℕ)) (line : Line Term) →
        IsStep setup events k w e u line → slice_get (written_report setup events) k ≡ Some (Reported line) }
    ensures step { (setup : Setup) (events : List Event) (k : ℕ) (line : Line Term) →
        slice_get (written_report setup events) k ≡ Some (Reported line) → Told setup events k line }
{}
