// Who sent each record.
ghost use Rattle.std.specs.Prelude.{◌≡◌, ◌<◌, ◌^◌, List, length};
ghost use Rattle.lte_machine.specs.World.{record_at};
ghost use Rattle.core_relocation.specs.Holder.{on_s1, station_in, station_sending, at_place};
ghost use Rattle.core_relocation.specs.declared.senders.Sender.{Sender};

use lte_events::{Class, Event, Who};

// Who sent a record, and on which interface, as the line of its event tells.
#[derive(Clone, Copy)]
pub(crate) struct Sender {
    pub(crate) who: Who,
    pub(crate) class: Class,
}

impl Sender {
    // The station that sent the record to a core, if one did.
    fn station(&self) -> Option<u8>
        ensures { result ≡ on_s1 self.now.who self.now.class }
    {
        match (self.who, self.class) {
            (Who::Station(id), Class::S1) => Some(id),
            _ => None,
        }
    }
}

// The station of which an event delivers a record on S1 to a core, if it does.
pub(crate) fn station_in(senders: &[Sender], event: &Event) -> Option<u8>
    requires { length senders.now < 2 ^ 32 }
    ensures { result ≡ station_in senders.now event.now }
{
    match event {
        Event::Deliver(i) => match record_at(senders, i) {
            Some(sender) => sender.station(),
            None => None,
        },
        _ => None,
    }
}

// The sender of a record by its number, or from the newest back where that is negative.
fn record_at(senders: &[Sender], i: &i64) -> Option<Sender>
    requires { length senders.now < 2 ^ 32 }
    ensures { result ≡ record_at i.now senders.now }
{
    let place = place_of(i, senders.len() as u32)?;
    senders.get(place as usize).copied()
}

// The place of a number among so many, from the newest back where it is negative.
fn place_of(i: &i64, len: u32) -> Option<u32>
    ensures { (senders : List Sender) → length senders ≡ len → at_place senders result ≡ record_at i.now senders }
{
    if *i >= 0 {
        return u32::try_from(*i).ok();
    }
    let back = i64::from(len) + *i;
    if back < 0 {
        return None;
    }
    Some(back as u32)
}
