// The first steps of a scenario.
ghost use Rattle.growth.specs.Growth.{WasRefused};
ghost use Rattle.std.specs.Prelude.{◌≡◌, ◌≤◌, ◌<◌, ◌∷◌, [], length, OnErr, OnOk, IsTrue, IsOkUnless, ◌↔◌};
ghost use Rattle.scenario_file.specs.Draws.{arrivals};
ghost use Rattle.scenario_file.specs.FirstSteps.{with_steps};

use crate::ScenarioFault;
use lte_events::{Event, Events};
use std::alloc::Global;
use std::marker::Model;

// Steps up to so many; what comes behind them is left out.
#[derive(Drop)]
pub(crate) struct FirstSteps {
    steps: Events,
    most: usize,
}

impl Model for FirstSteps {
    ghost use Rattle.std.specs.Prelude.{◌≤◌, length};
    ghost use Rattle.scenario_file.specs.FirstSteps.{Taken};

    ghost Value = { Taken };

    ghost view = { λ f. record { steps = f.steps.items; most = f.most } };

    ghost invariant = { λ f. length f.steps.items ≤ f.most };
}

impl FirstSteps {
    // None yet, of so many.
    pub(crate) fn new(alloc: Global, most: usize) -> FirstSteps
        ensures { result ≡ record { steps = []; most = most } }
    {
        let steps = Events::new(alloc);
        FirstSteps { steps, most }
    }

    // Whether there are as many as are taken.
    pub(crate) fn is_full(&self) -> bool
        ensures { IsTrue result ↔ (length self.now.steps ≡ self.now.most) }
    {
        self.steps.len() == self.most
    }

    // Takes one step more, where there is room.
    #[tactic(auto, unfolding(crate::specs::FirstSteps::with_steps))]
    pub(crate) fn put(&mut self, step: &Event) -> Result<(), ScenarioFault>
        ensures step { OnOk result (self.new ≡ with_steps self.old (step.now ∷ [])) }
        ensures memory { IsOkUnless result ScenarioFault.Memory }
        ensures refused { OnErr result WasRefused }
    {
        if self.is_full() {
            return Ok(());
        }
        self.steps.push(step)?;
        Ok(())
    }

    // The newest record arrives, so many times in a row.
    pub(crate) fn arrivals(&mut self, count: usize) -> Result<(), ScenarioFault>
        ensures steps { OnOk result (self.new ≡ with_steps self.old (arrivals count)) }
        ensures memory { IsOkUnless result ScenarioFault.Memory }
        ensures refused { OnErr result WasRefused }
    {
        // Reading the steps brings into the proof that they are no more than are taken.
        let _ = &self.steps;
        for _n in 0..count {
            self.put(&Event::Deliver(-1))?;
        }
        Ok(())
    }

    // The steps.
    pub(crate) fn into_steps(self) -> Events
        ensures value { result.items ≡ self.steps }
        ensures within { length result.items ≤ self.most }
    {
        self.steps
    }
}
