// What happened so far.
ghost use Rattle.growth.specs.Growth.{WasRefused};
ghost use Rattle.std.specs.Prelude.{◌≡◌, ◌<◌, [], ◌∷◌, ◌++◌, ◌^◌, length, OnErr, OnOk};
ghost use Rattle.core_relocation.specs.Holder.{sent_by, station_in};

use crate::senders::{Sender, station_in};
use lte_events::{Event, Events, Line};
use std::alloc::{AllocError, Global};
use std::marker::Model;

// The events that were answered by a line, and who sent each record. A contract sees both, and for how many more of each
// there is room.
#[derive(Drop)]
pub(crate) struct Log {
    events: Events,
    senders: Vec<Sender>,
}

impl Model for Log {
    ghost use Rattle.std.specs.Prelude.{◌-◌, vec_len, vec_capacity};
    ghost use Rattle.core_relocation.specs.Logged.{Logged};

    ghost Value = { Logged };

    ghost view = { λ l. record {
      events = l.events.items;
      senders = l.senders.items;
      event_room = l.events.spare;
      sender_room = vec_capacity l.senders - vec_len l.senders;
    } };
}

impl Log {
    // Nothing happened. It takes no memory.
    pub fn new(alloc: Global) -> Log
        ensures events { result.events ≡ [] }
        ensures senders { result.senders ≡ [] }
    {
        Log {
            events: Events::new(alloc),
            senders: Vec::new(alloc),
        }
    }

    // Makes room for one event and one record more, unless std refuses it.
    pub fn reserve(&mut self) -> Result<(), AllocError>
        ensures events { self.new.events ≡ self.old.events }
        ensures senders { self.new.senders ≡ self.old.senders }
        ensures event_room { OnOk result (0 < self.new.event_room) }
        ensures sender_room { OnOk result (0 < self.new.sender_room) }
        ensures refused { OnErr result WasRefused }
    {
        self.events.reserve()?;
        growth::reserve(&mut self.senders, 1)
    }

    // Puts an event at the end.
    pub fn put(&mut self, event: &Event)
        requires { 0 < self.old.event_room }
        ensures events { self.new.events ≡ self.old.events ++ event.now ∷ [] }
        ensures senders { self.new.senders ≡ self.old.senders }
    {
        self.events.put(event);
    }

    // Puts the sender at the end that a line tells, if it tells one.
    pub fn sent(&mut self, line: &Line)
        requires { 0 < self.old.sender_room }
        ensures events { self.new.events ≡ self.old.events }
        ensures room { self.new.event_room ≡ self.old.event_room }
        ensures senders { self.new.senders ≡ self.old.senders ++ sent_by line.now.who line.now.sent }
    {
        if let Some((_, class)) = line.sent {
            self.senders.push_reserved(Sender {
                who: line.who,
                class,
            });
        }
    }

    // The events, in order.
    pub fn events(&self) -> &Events
        ensures { result.now.items ≡ self.now.events }
    {
        &self.events
    }

    // The station of which an event delivers a record on S1 to a core, if it does.
    pub fn station_in(&self, event: &Event) -> Option<u8>
        requires { length self.now.senders < 2 ^ 32 }
        ensures { result ≡ station_in self.now.senders event.now }
    {
        station_in(self.senders.as_slice(), event)
    }
}
