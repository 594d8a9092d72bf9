// The inputs of an event, and what the actors replied to them.
ghost use Rattle.std.specs.Prelude.{◌≡◌, ◌<◌, ◌≤◌, ◌+◌, [], ◌∷◌, ◌++◌, Some, length, option_map, slice_get};
ghost use Rattle.lte_events.specs.declared.inputs.ActorIn.{ActorIn};
ghost use Rattle.lte_machine.specs.Calls.{phone_call, core_call};
ghost use Rattle.lte_world.specs.Replies.{ToldAt};
ghost use Rattle.lte_world.specs.Systems.{StepsAt};
ghost use Rattle.lte_events.specs.Ranges.{CoreTakes, PhoneTakes, StationTakes};

use arrayvec::ArrayVec;
use enb_context::Station;
use lte_events::{ActorIn, ActorOut, CoreIn, PhoneIn, StationIn};
use mme_context::Core;
use std::marker::Model;
use ue_context::Phone;

// The inputs of one event with their replies, at most two. A contract sees it as the list of them.
#[derive(Drop)]
pub(crate) struct Replies {
    items: ArrayVec<(ActorIn, ActorOut), 2>,
}

impl Model for Replies {
    ghost use Rattle.std.specs.Prelude.{List};
    ghost use Rattle.lte_events.specs.declared.inputs.ActorIn.{ActorIn};
    ghost use Rattle.lte_events.specs.declared.replies.ActorOut.{ActorOut};

    ghost Value = { List (ActorIn × ActorOut) };

    ghost view = { λ r. r.items.items };
}

impl Replies {
    // None.
    pub fn new() -> Replies
        ensures { result ≡ [] }
    {
        Replies {
            items: ArrayVec::new(),
        }
    }

    // None again.
    pub fn clear(&mut self)
        ensures { self.new ≡ [] }
    {
        self.items.clear();
    }

    // One of them, whichever it is. What is told of the next event is written in its place, and so its reply is not copied.
    pub fn keep_one(&mut self)
        ensures { length self.new ≡ 1 }
    {
        self.begin();
        self.items.truncate(1);
    }

    // At least one.
    fn begin(&mut self)
        ensures { 1 ≤ length self.new }
    {
        if self.items.is_empty() {
            put_any(&mut self.items);
        }
    }

    // A step of the phone: its input and reply, in place of what was told before.
    pub fn phone(&mut self, phone: &mut Phone, input: PhoneIn)
        requires one { length self.old ≡ 1 }
        requires input { PhoneTakes input }
        ensures actor { phone.new ≡ (phone_call phone.old input).0 }
        ensures told { self.new ≡ (ActorIn.Phone input, (phone_call phone.old input).1) ∷ [] }
    {
        let told = self.items.as_mut_slice();
        phone_at(&mut told[0], phone, input);
    }

    // A step of the core.
    pub fn core(&mut self, core: &mut Core, input: CoreIn)
        requires one { length self.old ≡ 1 }
        requires input { CoreTakes input }
        ensures actor { core.new ≡ (core_call core.old input).0 }
        ensures told { self.new ≡ (ActorIn.Core input, (core_call core.old input).1) ∷ [] }
    {
        let told = self.items.as_mut_slice();
        core_at(&mut told[0], core, input);
    }

    // A step of the core behind one of the phone, whose input and reply are put at the end.
    pub fn core_too(&mut self, core: &mut Core, input: CoreIn)
        requires room { length self.old < 2 }
        requires input { CoreTakes input }
        ensures actor { core.new ≡ (core_call core.old input).0 }
        ensures told { self.new ≡ self.old ++ (ActorIn.Core input, (core_call core.old input).1) ∷ [] }
    {
        let mut reply = ActorOut::default();
        core.reply(&input, &mut reply);
        self.items.push((ActorIn::Core(input), reply));
    }

    // A step of the station at a place.
    pub fn station(&mut self, stations: &mut Vec<Station>, at: usize, id: u8, input: StationIn)
        requires one { length self.old ≡ 1 }
        requires at { at < length stations.old.items }
        requires input { StationTakes input }
        ensures { ToldAt stations.old.items stations.new.items at id input self.new }
    {
        let told = self.items.as_mut_slice();
        station_at(&mut told[0], stations, at, id, input);
    }

    // The first reply.
    pub fn first(&self) -> &ActorOut
        requires { 0 < length self.now }
        ensures { option_map (λ r. r.1) (slice_get self.now 0) ≡ Some result.now }
    {
        &self.items.as_slice()[0].1
    }

    // They, in order.
    pub fn listed(&self) -> &ArrayVec<(ActorIn, ActorOut), 2>
        ensures { result.now.items ≡ self.now }
    {
        &self.items
    }
}

// Any at all, at the end.
fn put_any(told: &mut ArrayVec<(ActorIn, ActorOut), 2>)
    requires { length told.old.items < 2 }
    ensures { length told.new.items ≡ length told.old.items + 1 }
{
    told.push((ActorIn::default(), ActorOut::default()));
}

// A step of the phone, whose input and reply are written in place of others.
fn phone_at(told: &mut (ActorIn, ActorOut), phone: &mut Phone, input: PhoneIn)
    requires input { PhoneTakes input }
    ensures actor { phone.new ≡ (phone_call phone.old input).0 }
    ensures told { told.new ≡ (ActorIn.Phone input, (phone_call phone.old input).1) }
{
    phone.reply(&input, &mut told.1);
    told.0 = ActorIn::Phone(input);
}

// A step of the core.
fn core_at(told: &mut (ActorIn, ActorOut), core: &mut Core, input: CoreIn)
    requires input { CoreTakes input }
    ensures actor { core.new ≡ (core_call core.old input).0 }
    ensures told { told.new ≡ (ActorIn.Core input, (core_call core.old input).1) }
{
    core.reply(&input, &mut told.1);
    told.0 = ActorIn::Core(input);
}

// A step of the station at a place.
fn station_at(
    told: &mut (ActorIn, ActorOut),
    stations: &mut Vec<Station>,
    at: usize,
    id: u8,
    input: StationIn,
)
    requires at { at < length stations.old.items }
    requires input { StationTakes input }
    ensures steps { StepsAt stations.old.items stations.new.items at input told.new.1 }
    ensures is { told.new ≡ (ActorIn.Station id input, told.new.1) }
{
    step_at(stations, at, &input, &mut told.1);
    told.0 = ActorIn::Station(id, input);
}

// The reply to a step of the station at a place.
fn step_at(stations: &mut Vec<Station>, place: usize, input: &StationIn, reply: &mut ActorOut)
    requires place { place < length stations.old.items }
    requires input { StationTakes input.now }
    ensures { StepsAt stations.old.items stations.new.items place input.now reply.new }
{
    stations[place].reply(input, reply);
}
