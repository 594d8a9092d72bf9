ghost use Rattle.growth.specs.Growth.{WasRefused};
ghost use Rattle.std.specs.Prelude.{◌≡◌, ◌≢◌, ◌≤◌, None, length, IfOk, IfSome, IsOkUnless, OnErr};
ghost use Rattle.std.specs.Option.{option_map};
ghost use Rattle.lte_events.specs.Scenario.{IsScenario};
ghost use Rattle.item_faults.specs.Entries.{most_steps};
ghost use Rattle.item_faults.specs.Changes.{variant};
ghost use Rattle.item_faults.specs.Laws.{CanRun};
ghost use Rattle.item_outcomes.specs.Heals.{heals_of};
ghost use Rattle.variant_runs.specs.Judged.{entries, judged, judged_beside, judged_with, standing_with};
ghost use Rattle.variant_runs.specs.Original.{original_of, own_lines};
ghost use Rattle.variant_runs.specs.Troubles.{troubles_of};

use crate::judging::can_all_be;
use crate::originals::{acts_of, entries_of, first_station, own_run, senders_of, steps_of};
use crate::running::{own_names, run_with};
use crate::troubles::troubles_of;
use item_faults::{Entry, Fault, Step};
use item_outcomes::{Heals, Standing, Trouble, Verdict};
use item_standing::standing_of;
use lte_events::{Events, Setup};
use lte_world::WorldFault;
use std::alloc::Global;
use std::marker::Model;

/// A scenario, its items, and what the probe finds behind it.
#[derive(Drop)]
pub struct Study {
    setup: Setup,
    acts: Events,
    steps: Vec<Step>,
    entries: Vec<Entry>,
    senders: Vec<u32>,
    usual: Standing,
}

impl Model for Study {
    ghost use Rattle.variant_runs.specs.Original.{Original, Stands, an_original};

    ghost Value = { Original };

    ghost view = { λ s. an_original s.setup s.acts.items s.steps.items s.usual };

    ghost invariant = { λ s. Stands (an_original s.setup s.acts.items s.steps.items s.usual) s.entries.items s.senders.items };
}

impl Study {
    /// The scenario of these events. None where its run ends at a coincidence. `Memory` where std refuses memory.
    pub fn of(alloc: Global, setup: Setup, events: &Events) -> Result<Option<Study>, WorldFault>
        requires scenario { IsScenario setup events.now.items }
        requires few { length events.now.items ≤ most_steps }
        ensures memory { IsOkUnless result WorldFault.Memory }
        ensures refused { OnErr result WasRefused }
        ensures original { IfOk result (λ study. IfSome study (λ s. s ≡ original_of setup events.now.items)) }
        ensures whole { IfOk result (λ study. IfSome study (λ s. length (own_lines setup events.now.items) ≡ length events.now.items)) }
        ensures ended { IfOk result (λ study. study ≡ None → length (own_lines setup events.now.items) ≢ length events.now.items) }
    {
        let steps = events.len() as u32;
        let acts = acts_of(alloc, &setup, events)?;
        let course = own_run(alloc, &setup, &acts, steps)?;
        if course.told().len() != events.len() {
            drop(course);
            return Ok(None);
        }
        let listed = match steps_of(alloc, events, course.told()) {
            Ok(listed) => listed,
            Err(fault) => {
                drop(course);
                return Err(fault);
            }
        };
        let first = first_station(setup.stations.as_slice());
        let usual = standing_of(alloc, course, &setup, &acts, steps, first)?;
        let entries = entries_of(alloc, listed.as_slice())?;
        let senders = senders_of(alloc, listed.as_slice())?;
        Ok(Some(Study {
            setup,
            acts,
            steps: listed,
            entries,
            senders,
            usual,
        }))
    }

    /// What becomes of the scenario with these faults. None where they do not go together, or where what is sent again was not sent.
    /// `Memory` where std refuses memory.
    pub fn verdict(&self, alloc: Global, faults: &[Fault]) -> Result<Option<Verdict>, WorldFault>
        requires few { length faults.now ≤ 8 }
        ensures memory { IsOkUnless result WorldFault.Memory }
        ensures refused { OnErr result WasRefused }
        ensures judged { IfOk result (λ told. told ≡ judged self.now faults.now) }
    {
        match self.variant(alloc, faults)? {
            Some(list) => self.judged_with(alloc, faults, list.as_slice()),
            None => Ok(None),
        }
    }

    /// The items of the scenario.
    pub fn entries(&self) -> &[Entry]
        ensures { result.now ≡ entries self.now }
    {
        self.entries.as_slice()
    }

    /// Its steps.
    pub fn steps(&self) -> &[Step]
        ensures { result.now ≡ self.now.steps }
    {
        self.steps.as_slice()
    }

    /// The station that serves behind it.
    pub fn serving(&self) -> u8
        ensures { result ≡ self.now.usual.serving }
    {
        self.usual.serving()
    }

    /// What heals behind it.
    pub fn heals(&self) -> Heals
        ensures { result ≡ heals_of self.now.usual.told }
    {
        self.usual.heals()
    }

    /// What is wrong in the scenario itself, without any fault. `Memory` where std refuses memory.
    pub fn troubles(&self, alloc: Global) -> Result<Vec<Trouble>, WorldFault>
        ensures memory { IsOkUnless result WorldFault.Memory }
        ensures refused { OnErr result WasRefused }
        ensures troubles { IfOk result (λ list. list.items ≡ troubles_of self.now.usual self.now.acts self.now.steps) }
    {
        match troubles_of(alloc, &self.usual, &self.acts, self.steps.as_slice()) {
            Ok(list) => Ok(list),
            Err(_) => Err(WorldFault::Memory),
        }
    }

    // The items with these faults.
    fn variant(&self, alloc: Global, faults: &[Fault]) -> Result<Option<Vec<Entry>>, WorldFault>
        requires few { length faults.now ≤ 8 }
        ensures memory { IsOkUnless result WorldFault.Memory }
        ensures refused { OnErr result WasRefused }
        ensures items { IfOk result (λ new. option_map (λ list. list.items) new ≡ variant faults.now (entries self.now)) }
        ensures can_run { IfOk result (λ new. IfSome new (λ list. CanRun (length self.now.acts) list.items)) }
    {
        match item_faults::variant(alloc, faults, self.entries.as_slice()) {
            Ok(list) => Ok(list),
            Err(_) => Err(WorldFault::Memory),
        }
    }

    // What the probe finds behind the run of these items.
    fn standing_with(&self, alloc: Global, list: &[Entry]) -> Result<Standing, WorldFault>
        requires can_run { CanRun (length self.now.acts) list.now }
        ensures memory { IsOkUnless result WorldFault.Memory }
        ensures refused { OnErr result WasRefused }
        ensures standing { IfOk result (λ s. s ≡ standing_with self.now list.now) }
    {
        let steps = self.steps.len() as u32;
        let course = run_with(
            alloc,
            &self.setup,
            &self.acts,
            self.senders.as_slice(),
            list,
        )?;
        standing_of(
            alloc,
            course,
            &self.setup,
            &self.acts,
            steps,
            self.usual.serving(),
        )
    }

    fn judged_with(
        &self,
        alloc: Global,
        faults: &[Fault],
        list: &[Entry],
    ) -> Result<Option<Verdict>, WorldFault>
        requires can_run { CanRun (length self.now.acts) list.now }
        ensures memory { IsOkUnless result WorldFault.Memory }
        ensures refused { OnErr result WasRefused }
        ensures judged { IfOk result (λ told. told ≡ judged_with self.now faults.now list.now) }
    {
        let here = self.standing_with(alloc, list)?;
        self.judged_beside(alloc, faults, list, &here)
    }

    fn judged_beside(
        &self,
        alloc: Global,
        faults: &[Fault],
        list: &[Entry],
        here: &Standing,
    ) -> Result<Option<Verdict>, WorldFault>
        ensures memory { IsOkUnless result WorldFault.Memory }
        ensures refused { OnErr result WasRefused }
        ensures judged { IfOk result (λ told. told ≡ judged_beside self.now faults.now list.now here.now) }
    {
        if !can_all_be(
            self.usual.told(),
            here.told(),
            self.steps.as_slice(),
            faults,
        ) {
            return Ok(None);
        }
        match own_names(alloc, faults, list) {
            Ok(own) => match item_outcomes::verdict_of(alloc, own.as_slice(), &self.usual, here) {
                Ok(told) => Ok(Some(told)),
                Err(_) => Err(WorldFault::Memory),
            },
            Err(_) => Err(WorldFault::Memory),
        }
    }
}
