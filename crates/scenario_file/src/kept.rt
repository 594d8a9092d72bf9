// What a scenario keeps of its steps.
ghost use Rattle.growth.specs.Growth.{WasRefused};
ghost use Rattle.std.specs.Prelude.{◌≡◌, ◌<◌, [], ◌∷◌, ◌++◌, length, OnErr, OnOk};

use lte_events::{Event, Events, FleetEvents};
use std::alloc::{AllocError, Global};

// What a step says: which phone it happens to, and what happens.
#[derive(Drop)]
pub(crate) struct Step {
    pub(crate) phone: u16,
    pub(crate) event: Event,
}

// A list of what is kept of the steps: the events, or the phones and the events.
pub(crate) trait Kept: Drop {
    ghost use Rattle.std.specs.Prelude.{ℕ, List};
    ghost use Rattle.lte_events.specs.declared.events.Event.{Event as AnEvent};
    ghost use Rattle.scenario_file.specs.declared.kept.Step.{Step as AStep};

    // What is kept of one step.
    type Item;

    // What the list holds.
    ghost items: { Self → List Self.Item };

    // What is kept of a step, the event of what is kept, and whether its phone is one of so many.
    ghost kept: { AStep → Self.Item };

    ghost happening: { Self.Item → AnEvent };

    ghost is_of: { ℕ → Self.Item → Type 0 };

    fn new(alloc: Global) -> Self
        ensures { items result ≡ [] };

    fn len(&self) -> usize
        ensures { result ≡ length (items self.now) };

    fn keep(&mut self, step: &Step) -> Result<(), AllocError>
        ensures kept { OnOk result (items self.new ≡ items self.old ++ kept step.now ∷ []) }
        ensures event { happening (kept step.now) ≡ step.now.event }
        ensures refused { OnErr result WasRefused }
        ensures phone { (phones : ℕ) → step.now.phone < phones → is_of phones (kept step.now) };
}

impl Kept for Events {
    type Item = Event;

    ghost items = { λ events. events.items };

    ghost kept = { λ step. step.event };

    ghost happening = { λ event. event };

    ghost is_of = { λ _ _. Unit {0} };

    fn new(alloc: Global) -> Events {
        Events::new(alloc)
    }

    fn len(&self) -> usize {
        self.len()
    }

    fn keep(&mut self, step: &Step) -> Result<(), AllocError> {
        self.push(&step.event)
    }
}

impl Kept for FleetEvents {
    type Item = (u16, Event);

    ghost items = { λ events. events.items };

    ghost kept = { λ step. (step.phone, step.event) };

    ghost happening = { λ step. step.1 };

    ghost is_of = { λ phones step. step.0 < phones };

    fn new(alloc: Global) -> FleetEvents {
        FleetEvents::new(alloc)
    }

    fn len(&self) -> usize {
        self.len()
    }

    fn keep(&mut self, step: &Step) -> Result<(), AllocError> {
        self.push(step.phone, &step.event)
    }
}
