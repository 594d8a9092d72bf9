ghost use Rattle.growth.specs.Growth.{WasRefused};
ghost use Rattle.std.specs.Prelude.{◌≡◌, ◌≢◌, ◌≤◌, ◌<◌, None, Some, Err, IfOk, IfSome, IsOkUnless, OnErr, length, slice_get};
ghost use Rattle.fleet_world.specs.Answers.{own_at};
ghost use Rattle.fleet_world.specs.Apart.{NoUseTwice, PhonesSeparate};
ghost use Rattle.fleet_world.specs.Fleets.{answer_of, begun, journal_after, over_after, most_phones, CanTake, IsOwn, owns_in, world_of};
ghost use Rattle.fleet_world.specs.Isolation.{LinesAreOwn};
ghost use Rattle.fleet_world.specs.Steps.{Leaves};
ghost use Rattle.lte_events.specs.Ranges.{IsSetup};
ghost use Rattle.lte_properties.specs.Headline.{Headline};

use crate::meeting::{crossing, taken};
use crate::worlds::{take, worlds_of};
use crate::{FleetFault, FleetLine};
use lte_events::{Event, FleetEvents, Setup};
use lte_world::{World, WorldFault};
use std::alloc::Global;
use std::marker::Model;

/// Many phones over the same stations and one core. Each phone has a world of its own: stations and core keep a
/// state for each phone, and numbers of its own.
///
/// A contract sees what it started with, the world of each phone, the events that it took, and the coincidence
/// that ended it if one did.
#[derive(Drop)]
pub struct Fleet {
    setup: Setup,
    worlds: Vec<World>,
    journal: FleetEvents,
    over: Option<FleetFault>,
}

impl Model for Fleet {
    ghost use Rattle.fleet_world.specs.Fleets.{Fleeted, StandsUnless};

    ghost Value = { Fleeted };

    ghost view = { λ f. record { setup = f.setup; worlds = f.worlds.items; journal = f.journal.items; over = f.over } };

    ghost invariant = { λ f. StandsUnless f.over f.setup f.worlds.items f.journal.items };
}

impl Fleet {
    /// A fleet of so many phones, 1 to 256, in which nothing has happened. `Memory` where std refuses memory.
    pub fn new(alloc: Global, setup: &Setup, phones: u16) -> Result<Fleet, FleetFault>
        requires begins { IsSetup setup.now }
        requires some { 1 ≤ phones }
        requires few { phones ≤ most_phones }
        ensures memory { IsOkUnless result FleetFault.Memory }
        ensures refused { OnErr result WasRefused }
        ensures begins { IfOk result (λ f. f ≡ begun setup.now phones) }
    {
        let worlds = worlds_of(alloc, setup, phones)?;
        Ok(Fleet {
            setup: copied_setup(setup),
            worlds,
            journal: FleetEvents::new(alloc),
            over: None,
        })
    }

    /// A phone takes an event, which can happen to it; there are fewer than 200,000 events before it.
    ///
    /// For an authentication with a root of another phone the answer is `Taken`, with the least such phone, and no
    /// world sees it. `Chance` is one of the phone's own world. `Cross` is a key that the event adds to
    /// the phone's ladder although another phone's ladder has it: the first such key, and the least such
    /// phone. Both end the fleet: the event does not enter the journal, and every later event gets the same
    /// answer. `Memory`, where std refuses memory, leaves the fleet as it was.
    pub fn apply(&mut self, phone: u16, event: &Event) -> Result<FleetLine, FleetFault>
        requires { CanTake self.old phone event.now }
        ensures memory { result ≡ Err FleetFault.Memory → self.new ≡ self.old }
        ensures refused { self.old.over ≡ None → result ≡ Err FleetFault.Memory → WasRefused }
        ensures says { result ≢ Err FleetFault.Memory → result ≡ answer_of self.old phone event.now }
        ensures setup { self.new.setup ≡ self.old.setup }
        ensures journal { self.new.journal ≡ journal_after result self.old.journal phone event.now }
        ensures over { result ≢ Err FleetFault.Memory → self.new.over ≡ over_after result }
        ensures worlds { self.old.over ≡ None → Leaves self.old self.new.worlds phone event.now result }
        ensures ended { IfSome self.old.over (λ fault. (result ≡ Err fault) × (self.new ≡ self.old)) }
    {
        if let Some(fault) = self.over {
            return Err(fault);
        }
        match self.journal.reserve() {
            Ok(()) => {}
            Err(_) => return Err(FleetFault::Memory),
        }
        if let Some(other) = taken(self.worlds.as_slice(), phone, event) {
            self.journal.put(phone, event);
            return Ok(FleetLine::Taken(other));
        }
        match take(&mut self.worlds, phone as usize, event) {
            Ok((rows, line)) => match crossing(self.worlds.as_slice(), phone, rows) {
                None => {
                    self.journal.put(phone, event);
                    Ok(FleetLine::Of(phone, line))
                }
                Some(fault) => {
                    self.over = Some(fault);
                    Err(fault)
                }
            },
            Err(WorldFault::Chance(proof)) => {
                let fault = FleetFault::Chance(phone, proof);
                self.over = Some(fault);
                Err(fault)
            }
            Err(WorldFault::Memory) => Err(FleetFault::Memory),
        }
    }

    /// The events that were answered by a line, in order, each with its phone; those answered `Taken` among them.
    ///
    /// If no coincidence ended the fleet, no phone sees another: each phone's lines are those of the run of its
    /// own events, no use of a key repeats, and no key from a phone's root can be derived from what stations hold
    /// for the other phones.
    pub fn journal(&self) -> &FleetEvents
        ensures journal { result.now.items ≡ self.now.journal }
        ensures isolation { self.now.over ≡ None → LinesAreOwn self.now.setup (length self.now.worlds) result.now.items }
        ensures freshness { self.now.over ≡ None → NoUseTwice self.now.setup (owns_in self.now) }
        ensures separation { self.now.over ≡ None → PhonesSeparate self.now.setup (owns_in self.now) }
    {
        &self.journal
    }

    /// The world of a phone. Where no coincidence ended the fleet, it is that of the phone's own events, and the
    /// headline holds of them.
    pub fn world(&self, phone: u16) -> &World
        requires { phone < length self.now.worlds }
        ensures world { slice_get self.now.worlds phone ≡ Some result.now }
        ensures own { self.now.over ≡ None → result.now ≡ world_of self.now.setup (own_at (owns_in self.now) phone) }
        ensures sound { self.now.over ≡ None → IsSetup self.now.setup × IsOwn self.now.setup (length self.now.journal) (own_at (owns_in self.now) phone) }
        ensures headline { self.now.over ≡ None → Headline self.now.setup (own_at (owns_in self.now) phone) }
    {
        &self.worlds[phone as usize]
    }
}

// The same setup.
fn copied_setup(setup: &Setup) -> Setup
    ensures { result ≡ setup.now }
{
    setup.clone().unwrap()
}
