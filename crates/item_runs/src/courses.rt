ghost use Rattle.growth.specs.Growth.{WasRefused};
ghost use Rattle.std.specs.Prelude.{◌≡◌, ◌+◌, ◌*◌, ◌<◌, ◌≤◌, length, pos, option_map, All, None, Some, IfOk, IsOkUnless, OnOk, OnErr};
ghost use Rattle.lte_events.specs.Ranges.{IsSetup};
ghost use Rattle.lte_events.specs.Scenario.{most_events, CanHappen};
ghost use Rattle.lte_events.specs.declared.events.Event.{Event as AnEvent};
ghost use Rattle.items.specs.Items.{most_at_once, IsItemOf};
ghost use Rattle.item_runs.specs.Coming.{after_told, happening, kept, nothing, number_told, record_of, with_item};
ghost use Rattle.item_runs.specs.Course.{coming_of, going_on, place_of, told_written, Promises};
ghost use Rattle.item_runs.specs.Reach.{reach_of};
ghost use Rattle.item_runs.specs.CoreStation.{core_station_of};

use crate::Sent;
use crate::events::{happen, place};
use crate::reach::reach;
use item_lines::Told;
use items::{Deed, Item};
use key_terms::Proof;
use lte_events::{Class, Event, Events, Setup};
use lte_world::{World, WorldFault};
use std::alloc::Global;
use std::marker::Model;

/// A run of items: a system to which their events happen.
///
/// A contract sees the setup that it began with, and what the items have come to.
#[derive(Drop)]
pub struct Course {
    world: World,
    told: Vec<Told>,
    sent: Vec<Sent>,
    over: Option<Proof>,
}

impl Model for Course {
    ghost use Rattle.std.specs.Prelude.{◌≡◌, None};
    ghost use Rattle.lte_machine.specs.Run.{GoesOn};
    ghost use Rattle.lte_world.specs.Whole.{run_of};
    ghost use Rattle.item_runs.specs.Course.{seen, Seen, Stands};

    ghost Value = { Seen };

    ghost view = { λ c. seen c.world c.told.items c.sent.items c.over };

    ghost invariant = { λ c. Stands c.world.setup c.world.journal c.told.items × (c.over ≡ None → GoesOn (run_of c.world)) };
}

/// Lets these items happen to a system that begins with this setup, one after the other, up to the first coincidence.
/// `Memory` where std refuses memory.
pub fn run_items(
    alloc: Global,
    setup: &Setup,
    acts: &Events,
    items: &[Item],
) -> Result<Course, WorldFault>
    requires is_setup { IsSetup setup.now }
    requires can_happen { All (CanHappen setup.now) acts.now.items }
    requires are_items { All (IsItemOf (length acts.now.items)) items.now }
    requires few { length items.now * (most_at_once + 1) ≤ most_events }
    ensures memory { IsOkUnless result WorldFault.Memory }
    ensures refused { OnErr result WasRefused }
    ensures setup { IfOk result (λ c. c.setup ≡ setup.now) }
    // What they come to in the run of the written machine.
    ensures coming { IfOk result (λ c. c.coming ≡ coming_of setup.now acts.now.items items.now) }
    // Its events are a scenario with these lines, of which all holds that holds of every run.
    ensures promises { IfOk result Promises }
    ensures few { IfOk result (λ c. length c.coming.events ≤ length items.now * (most_at_once + 1)) }
{
    let mut course = Course::new(alloc, setup)?;
    match course.go_on(acts, items) {
        Ok(()) => Ok(course),
        Err(fault) => {
            drop(course);
            Err(fault)
        }
    }
}

impl Course {
    // Nothing happened.
    fn new(alloc: Global, setup: &Setup) -> Result<Course, WorldFault>
        requires { IsSetup setup.now }
        ensures memory { IsOkUnless result WorldFault.Memory }
        ensures refused { OnErr result WasRefused }
        ensures setup { IfOk result (λ c. c.setup ≡ setup.now) }
        ensures coming { IfOk result (λ c. c.coming ≡ nothing) }
    {
        let world = World::new(alloc, setup)?;
        Ok(Course {
            world,
            told: Vec::new(alloc),
            sent: Vec::new(alloc),
            over: None,
        })
    }

    /// Lets these items happen behind those so far. `Memory` where std refuses memory.
    #[tactic(auto, unfolding(crate::specs::Coming::coming_from))]
    pub fn go_on(&mut self, acts: &Events, items: &[Item]) -> Result<(), WorldFault>
        requires can_happen { All (CanHappen self.old.setup) acts.now.items }
        requires are_items { All (IsItemOf (length acts.now.items)) items.now }
        requires few { length self.old.coming.events + length items.now * (most_at_once + 1) ≤ most_events }
        ensures memory { IsOkUnless result WorldFault.Memory }
        ensures refused { OnErr result WasRefused }
        ensures setup { OnOk result (self.new.setup ≡ self.old.setup) }
        // What they come to in the run of the written machine.
        ensures coming { OnOk result (self.new.coming ≡ going_on self.old.setup acts.now.items items.now self.old.coming) }
        // Its events are a scenario with these lines, of which all holds that holds of every run.
        ensures promises { OnOk result (Promises self.new) }
        ensures longer { OnOk result (length self.new.coming.events ≤ length self.old.coming.events + length items.now * (most_at_once + 1)) }
    {
        for item in items {
            self.take(acts, item)?;
        }
        self.promises();
        Ok(())
    }

    // What holds of every run of items.
    fn promises(&self)
        ensures { Promises self.now }
    {
        // Reading a field brings the invariant into the proof.
        let _ = &self.world;
    }

    // Lets one item happen.
    fn take(&mut self, acts: &Events, item: &Item) -> Result<(), WorldFault>
        requires can_happen { All (CanHappen self.old.setup) acts.now.items }
        requires is_item { IsItemOf (length acts.now.items) item.now }
        requires few { length self.old.coming.events + item.now.at_once < most_events }
        ensures memory { IsOkUnless result WorldFault.Memory }
        ensures refused { OnErr result WasRefused }
        ensures setup { OnOk result (self.new.setup ≡ self.old.setup) }
        ensures coming { OnOk result (self.new.coming ≡ with_item (told_written self.old.setup) (place_of self.old.setup) acts.now.items item.now self.old.coming) }
        ensures longer { OnOk result (length self.new.coming.events ≤ length self.old.coming.events + item.now.at_once + 1) }
    {
        if self.over.is_some() {
            return Ok(());
        }
        match item.deed {
            Deed::Act(place) => {
                let event = acts.at(place as usize);
                self.happening(item.at_once, item.name, &event)
            }
            Deed::Delivery(of) => match self.record_of(of) {
                Some(number) => {
                    let event = delivery(number);
                    self.happening(item.at_once, item.name, &event)
                }
                None => Ok(()),
            },
        }
    }

    // Lets an event of an item happen, and so often what is sent is delivered at once.
    fn happening(&mut self, times: u8, name: u32, event: &Event) -> Result<(), WorldFault>
        requires goes_on { self.old.coming.over ≡ None }
        requires can_happen { CanHappen self.old.setup event.now }
        requires few { length self.old.coming.events + times < most_events }
        ensures memory { IsOkUnless result WorldFault.Memory }
        ensures refused { OnErr result WasRefused }
        ensures setup { OnOk result (self.new.setup ≡ self.old.setup) }
        ensures coming { OnOk result (self.new.coming ≡ happening (told_written self.old.setup) (place_of self.old.setup) times name event.now self.old.coming) }
        ensures longer { OnOk result (length self.new.coming.events ≤ length self.old.coming.events + times + 1) }
    {
        match self.one(name, event)? {
            None => Ok(()),
            Some(number) => {
                if times == 0 {
                    self.keep(name, number)
                } else {
                    let next = delivery(number);
                    self.happening(times - 1, name, &next)
                }
            }
        }
    }

    // Lets one event happen. The answer is the number of the record that was sent.
    fn one(&mut self, name: u32, event: &Event) -> Result<Option<u32>, WorldFault>
        requires goes_on { self.old.coming.over ≡ None }
        requires can_happen { CanHappen self.old.setup event.now }
        requires few { length self.old.coming.events < most_events }
        ensures memory { IsOkUnless result WorldFault.Memory }
        ensures refused { OnErr result WasRefused }
        ensures setup { OnOk result (self.new.setup ≡ self.old.setup) }
        ensures coming { OnOk result (self.new.coming ≡ after_told (place_of self.old.setup) name event.now self.old.coming (told_written self.old.setup self.old.coming.events event.now)) }
        ensures number { IfOk result (λ number. number ≡ number_told (told_written self.old.setup self.old.coming.events event.now)) }
    {
        match growth::reserve(&mut self.told, 1) {
            Ok(()) => {}
            Err(_) => return Err(WorldFault::Memory),
        }
        match happen(&mut self.world, event) {
            Ok(line) => {
                let number = number_in(&line.sent);
                let at = place(&self.world, &line.who);
                self.told.push_reserved(Told { name, line, at });
                Ok(number)
            }
            Err(WorldFault::Chance(proof)) => {
                self.over = Some(proof);
                Ok(None)
            }
            Err(WorldFault::Memory) => Err(WorldFault::Memory),
        }
    }

    // Keeps a record for the item that delivers it.
    fn keep(&mut self, name: u32, number: u32) -> Result<(), WorldFault>
        ensures memory { IsOkUnless result WorldFault.Memory }
        ensures refused { OnErr result WasRefused }
        ensures setup { OnOk result (self.new.setup ≡ self.old.setup) }
        ensures coming { OnOk result (self.new.coming ≡ kept name (Some number) self.old.coming) }
    {
        match growth::push(&mut self.sent, Sent { name, number }) {
            Ok(()) => Ok(()),
            Err(_) => Err(WorldFault::Memory),
        }
    }

    // The record that the item of this name sent.
    fn record_of(&self, name: u32) -> Option<u32>
        ensures { result ≡ record_of name self.now.coming.sent }
    {
        self.sent
            .iter()
            .find(|sent| sent.name == name)
            .map(|sent| sent.number)
    }

    /// The lines of the events, each with the name of its item.
    pub fn told(&self) -> &[Told]
        ensures { result.now ≡ self.now.coming.told }
    {
        self.told.as_slice()
    }

    /// The coincidence that ended it, if one did.
    pub fn over(&self) -> Option<Proof>
        ensures { result ≡ self.now.coming.over }
    {
        self.over
    }

    /// The events that happened.
    pub fn events(&self) -> &Events
        ensures { result.now.items ≡ self.now.coming.events }
    {
        self.world.journal()
    }

    /// The lines alone.
    pub fn into_told(self) -> Vec<Told>
        ensures { result.items ≡ self.coming.told }
    {
        let Course { world, told, .. } = self;
        drop(world);
        told
    }

    /// The stations that can derive the key that the phone came by last: none after a coincidence. `Memory` where std refuses memory.
    pub fn reach(&self, alloc: Global) -> Result<Vec<u8>, WorldFault>
        ensures memory { IsOkUnless result WorldFault.Memory }
        ensures refused { OnErr result WasRefused }
        ensures reach { IfOk result (λ found. found.items ≡ reach_of self.now) }
    {
        if self.over.is_some() {
            return Ok(Vec::new(alloc));
        }
        match reach(alloc, self.world.ladder(), self.told.as_slice()) {
            Ok(found) => Ok(found),
            Err(_) => Err(WorldFault::Memory),
        }
    }

    /// The station at which the core has the phone: none where it has no connection of the phone, and none after a coincidence.
    pub fn core_station(&self) -> Option<u8>
        ensures { result ≡ core_station_of self.now }
    {
        if self.over.is_some() {
            return None;
        }
        self.world.core_station()
    }
}

// The number of the record that a line tells.
fn number_in(sent: &Option<(u32, Class)>) -> Option<u32>
    ensures { result ≡ option_map (λ s. s.0) sent.now }
{
    sent.map(|(number, _)| number)
}

// The delivery of a record.
fn delivery(number: u32) -> Event
    ensures { result ≡ AnEvent.Deliver (pos number) }
{
    Event::Deliver(i64::from(number))
}
