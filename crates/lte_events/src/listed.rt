// Events, one after the other.
ghost use Rattle.growth.specs.Growth.{WasRefused};
ghost use Rattle.std.specs.Prelude.{◌≡◌, ◌+◌, ◌-◌, ◌<◌, ◌≤◌, [], ◌∷◌, ◌++◌, length, Some, slice_get, IfOk, OnOk, OnErr};

use crate::heads::{Head, join, split};
use crate::{Event, Texts};
use std::alloc::{AllocError, Global};
use std::marker::Model;

/// A list of events, each of which takes only as much room as its own text needs. A contract sees the
/// events, and for how many more there is room.
#[derive(Drop)]
pub struct Events {
    texts: Texts<Head>,
}

impl Model for Events {
    ghost use Rattle.std.specs.Prelude.{map};
    ghost use Rattle.lte_events.specs.Listed.{Listed, event_of, AllFit};

    ghost Value = { Listed };

    ghost view = { λ e. record { items = map event_of e.texts.items; spare = e.texts.spare } };

    ghost invariant = { λ e. AllFit e.texts.items };
}

impl Events {
    /// No event. It takes no memory.
    pub fn new(alloc: Global) -> Events
        ensures items { result.items ≡ [] }
        ensures spare { result.spare ≡ 0 }
    {
        Events {
            texts: Texts::new(alloc),
        }
    }

    /// These events.
    pub fn of(alloc: Global, events: &[Event]) -> Result<Events, AllocError>
        ensures items { IfOk result (λ list. list.items ≡ events.now) }
        ensures refused { OnErr result WasRefused }
    {
        let mut list = Events::new(alloc);
        for event in events {
            list.push(event)?;
        }
        Ok(list)
    }

    /// Makes room for one event more. Where memory runs out nothing changes: there was room for none, and std refused it.
    pub fn reserve(&mut self) -> Result<(), AllocError>
        ensures items { self.new.items ≡ self.old.items }
        ensures lacking { OnErr result (self.old.spare < 1) }
        ensures refused { OnErr result WasRefused }
        ensures room { OnOk result (0 < self.new.spare) }
        ensures spare { self.old.spare ≤ self.new.spare }
        ensures err { OnErr result (self.new ≡ self.old) }
    {
        self.texts.reserve()
    }

    /// Puts an event at the end, for which there is room.
    pub fn put(&mut self, event: &Event)
        requires { 0 < self.old.spare }
        ensures items { self.new.items ≡ self.old.items ++ event.now ∷ [] }
        ensures spare { self.old.spare ≤ self.new.spare + 1 }
    {
        let (head, text) = split(event);
        self.texts.put(head, text);
    }

    /// Puts an event at the end. Where std refuses memory nothing changes.
    pub fn push(&mut self, event: &Event) -> Result<(), AllocError>
        ensures items { OnOk result (self.new.items ≡ self.old.items ++ event.now ∷ []) }
        ensures refused { OnErr result WasRefused }
        ensures err { OnErr result (self.new ≡ self.old) }
    {
        self.reserve()?;
        self.put(event);
        Ok(())
    }

    /// How many events there are.
    pub fn len(&self) -> usize
        ensures { result ≡ length self.now.items }
    {
        self.texts.len()
    }

    /// An event by its number, counted from 0.
    pub fn at(&self, number: usize) -> Event
        requires { number < length self.now.items }
        ensures { slice_get self.now.items number ≡ Some result }
    {
        let (head, text) = self.texts.at(number);
        join(&head, text)
    }
}
