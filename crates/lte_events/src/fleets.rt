// The events of a fleet, one after the other.
ghost use Rattle.growth.specs.Growth.{WasRefused};
ghost use Rattle.std.specs.Prelude.{◌≡◌, ◌<◌, [], ◌∷◌, ◌++◌, length, Some, slice_get, OnOk, OnErr};

use crate::{Event, Events};
use std::alloc::{AllocError, Global};
use std::marker::Model;

/// A list of the events of a fleet, each with the phone that it happens to. A contract sees the phones with their
/// events, and for how many more there is room.
#[derive(Drop)]
pub struct FleetEvents {
    phones: Vec<u16>,
    events: Events,
}

impl Model for FleetEvents {
    ghost use Rattle.std.specs.Prelude.{◌≡◌, ◌-◌, length, min, vec_len, vec_capacity};
    ghost use Rattle.std.specs.List.{zip};
    ghost use Rattle.lte_events.specs.FleetListed.{FleetListed};

    ghost Value = { FleetListed };

    ghost view = { λ f. record { items = zip f.phones.items f.events.items; spare = min (vec_capacity f.phones - vec_len f.phones) f.events.spare } };

    ghost invariant = { λ f. length f.phones.items ≡ length f.events.items };
}

impl FleetEvents {
    /// No event. It takes no memory.
    pub fn new(alloc: Global) -> FleetEvents
        ensures items { result.items ≡ [] }
    {
        FleetEvents {
            phones: Vec::new(alloc),
            events: Events::new(alloc),
        }
    }

    /// Makes room for one event more. Where std refuses memory the events are the same.
    pub fn reserve(&mut self) -> Result<(), AllocError>
        ensures items { self.new.items ≡ self.old.items }
        ensures room { OnOk result (0 < self.new.spare) }
        ensures refused { OnErr result WasRefused }
    {
        growth::reserve(&mut self.phones, 1)?;
        self.events.reserve()
    }

    /// Puts an event of a phone at the end, for which there is room.
    pub fn put(&mut self, phone: u16, event: &Event)
        requires { 0 < self.old.spare }
        ensures { self.new.items ≡ self.old.items ++ (phone, event.now) ∷ [] }
    {
        self.phones.push_reserved(phone);
        self.events.put(event);
    }

    /// Puts an event of a phone at the end. Where std refuses memory the events are the same.
    pub fn push(&mut self, phone: u16, event: &Event) -> Result<(), AllocError>
        ensures items { OnOk result (self.new.items ≡ self.old.items ++ (phone, event.now) ∷ []) }
        ensures refused { OnErr result WasRefused }
        ensures err { OnErr result (self.new.items ≡ self.old.items) }
    {
        self.reserve()?;
        self.put(phone, event);
        Ok(())
    }

    /// How many events there are.
    pub fn len(&self) -> usize
        ensures { result ≡ length self.now.items }
    {
        self.events.len()
    }

    /// The phone of an event, and the event, by its number, counted from 0.
    pub fn at(&self, number: usize) -> (u16, Event)
        requires { number < length self.now.items }
        ensures { slice_get self.now.items number ≡ Some result }
    {
        (self.phones[number], self.events.at(number))
    }
}
