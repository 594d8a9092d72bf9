// The actors, and what is kept beside them.
ghost use Rattle.growth.specs.Growth.{WasRefused};
ghost use Rattle.std.specs.Prelude.{◌≡◌, ◌≤◌, ◌<◌, ◌==◌, length, position, None, IsOkUnless, OnOk, OnErr, IfSome};
ghost use Rattle.lte_events.specs.Ranges.{CoreTakes, PhoneDoes, PhoneTakes, StationDoes, StationTakes, TakesInjected};
ghost use Rattle.lte_events.specs.Reply.{reply_of};
ghost use Rattle.lte_events.specs.declared.events.Event.TheVariants.{Auth, Deliver, Inject};
ghost use Rattle.lte_events.specs.declared.lines.Who.TheVariants.{World};
ghost use Rattle.lte_machine.specs.Calls.{line_of_reply};
ghost use Rattle.lte_world.specs.Networks.{AddsFew, HasPlace};
ghost use Rattle.lte_world.specs.Systems.{ArrivalCan, Arrives, EventCan, Happens, HasRoom, MayHappen, PhoneTurns, PhoneCan, CoreTurns, CoreCan, StationTurns, StationCan, with_room};
ghost use Rattle.lte_events.specs.declared.inputs.ActorIn.{ActorIn};
ghost use Rattle.lte_world.specs.Replies.{input_at, replies_by, Tells};
ghost use Rattle.lte_world.specs.Settling.{told_in};

use crate::WorldFault;
use crate::network::{Enrolled, Network, tell};
use crate::replies::Replies;
use alg_choice::Caps;
use annex_a_keys::Kasme;
use enb_context::Station;
use key_terms::{Holder, Proof};
use lte_events::{
    ActorOut, Address, Answer, CoreAct, CoreIn, Event, Line, PhoneAct, PhoneIn, StationAct,
    StationIn, Who,
};
use mme_context::Core;
use rec_base::{Octets, Use};
use std::marker::Model;
use ue_context::Phone;

// The phone, the core, the stations, and what is kept beside them.
#[derive(Drop)]
pub(crate) struct System {
    pub(crate) phone: Phone,
    pub(crate) core: Core,
    pub(crate) ids: Vec<u8>,
    pub(crate) stations: Vec<Station>,
    pub(crate) network: Network,
}

impl Model for System {
    ghost use Rattle.std.specs.Prelude.{◌≡◌, ◌==◌, ◌≤◌, map};
    ghost use Rattle.std.specs.List.{IsDistinct, AllByRecursion as AllOf};
    ghost use Rattle.lte_world.specs.Systems.{Actors};

    ghost Value = { Actors };

    ghost view = { λ s. record {
      phone = s.phone;
      core = s.core;
      stations = s.stations.items;
      stores = s.network;
    } };

    ghost invariant = { λ s. (map (λ x. x.id) s.stations.items ≡ s.ids.items) × IsDistinct (λ a b. a == b) s.ids.items
        × AllOf (λ id. id ≤ 7) s.ids.items };
}

impl System {
    // A step of the phone.
    pub fn phone_turn(
        &mut self,
        input: PhoneIn,
        sender: Option<Use>,
        step: u32,
        told: &mut Replies,
        line: &mut Line,
    ) -> Result<(), Proof>
        requires room { HasRoom self.old.stores }
        requires input { PhoneTakes input }
        requires can { PhoneCan self.old input }
        requires one { length told.old ≡ 1 }
        ensures turns { PhoneTurns self.old self.new input sender step (told_in result line.new) }
        ensures grows { AddsFew self.old.stores self.new.stores }
        ensures told { told.new ≡ replies_by self.old.phone self.old.core self.old.stations (ActorIn.Phone input) }
    {
        told.phone(&mut self.phone, input);
        self.network.settle(told.first(), sender, Holder::Phone, Who::Phone, step, line)
    }

    // A step of the core.
    pub fn core_turn(
        &mut self,
        input: CoreIn,
        sender: Option<Use>,
        step: u32,
        told: &mut Replies,
        line: &mut Line,
    ) -> Result<(), Proof>
        requires room { HasRoom self.old.stores }
        requires input { CoreTakes input }
        requires can { CoreCan self.old input }
        requires one { length told.old ≡ 1 }
        ensures turns { CoreTurns self.old self.new input sender step (told_in result line.new) }
        ensures grows { AddsFew self.old.stores self.new.stores }
        ensures told { told.new ≡ replies_by self.old.phone self.old.core self.old.stations (ActorIn.Core input) }
    {
        told.core(&mut self.core, input);
        self.network
            .settle(told.first(), sender, Holder::Core, Who::Core, step, line)
    }

    // One event.
    pub fn happen(
        &mut self,
        event: &Event,
        step: u32,
        told: &mut Replies,
        line: &mut Line,
    ) -> Result<(), Proof>
        requires room { HasRoom self.old.stores }
        requires may { MayHappen event.now }
        requires can { EventCan self.old event.now }
        requires one { length told.old ≡ 1 }
        ensures happens { Happens self.old self.new event.now step (told_in result line.new) }
        ensures grows { AddsFew self.old.stores self.new.stores }
        ensures told { OnOk result (Tells self.old event.now told.new) }
    {
        match event {
            Event::Auth(ksi, root, caps) => self.authenticate(*ksi, *root, *caps, step, told, line),
            Event::Phone(act) => self.phone_act(act, step, told, line),
            Event::Station(id, act) => self.station_act(*id, act, step, told, line),
            Event::Core(act) => self.core_act(act, step, told, line),
            Event::Deliver(i) => self.deliver(i, step, told, line),
            Event::Inject(to, octets) => self.inject(to, octets, step, told, line),
        }
    }

    // An authentication.
    fn authenticate(
        &mut self,
        ksi: u8,
        root: [u8; 32],
        caps: Caps,
        step: u32,
        told: &mut Replies,
        line: &mut Line,
    ) -> Result<(), Proof>
        requires room { HasRoom self.old.stores }
        requires may { ksi ≤ 6 }
        requires can { EventCan self.old (Auth ksi root caps) }
        requires one { length told.old ≡ 1 }
        ensures happens { Happens self.old self.new (Auth ksi root caps) step (told_in result line.new) }
        ensures grows { AddsFew self.old.stores self.new.stores }
        ensures told { OnOk result (Tells self.old (Auth ksi root caps) told.new) }
    {
        match self.network.enroll(root) {
            Enrolled::New => {}
            Enrolled::Repeated(row) => {
                told.clear();
                refused(Answer::RepeatedRoot(row.0), step, line);
                return Ok(());
            }
            Enrolled::Coincidence(proof) => return Err(proof),
        }
        let root = Kasme::of_octets(root);
        told.phone(&mut self.phone, PhoneIn::Auth(ksi, root));
        told.core_too(&mut self.core, CoreIn::Auth(ksi, root, caps));
        tell(&ActorOut::of(Answer::Done), None, Who::Both, step, line);
        Ok(())
    }

    // An act of the phone.
    fn phone_act(
        &mut self,
        act: &PhoneAct,
        step: u32,
        told: &mut Replies,
        line: &mut Line,
    ) -> Result<(), Proof>
        requires room { HasRoom self.old.stores }
        requires may { PhoneDoes act.now }
        requires can { EventCan self.old (Event.Phone act.now) }
        requires one { length told.old ≡ 1 }
        ensures happens { Happens self.old self.new (Event.Phone act.now) step (told_in result line.new) }
        ensures grows { AddsFew self.old.stores self.new.stores }
        ensures told { OnOk result (Tells self.old (Event.Phone act.now) told.new) }
    {
        let input = PhoneIn::Act(copied_phone_act(act));
        self.phone_turn(input, None, step, told, line)
    }

    // An act of a station.
    fn station_act(
        &mut self,
        id: u8,
        act: &StationAct,
        step: u32,
        told: &mut Replies,
        line: &mut Line,
    ) -> Result<(), Proof>
        requires room { HasRoom self.old.stores }
        requires may { StationDoes act.now }
        requires can { EventCan self.old (Event.Station id act.now) }
        requires one { length told.old ≡ 1 }
        ensures happens { Happens self.old self.new (Event.Station id act.now) step (told_in result line.new) }
        ensures grows { AddsFew self.old.stores self.new.stores }
        ensures told { OnOk result (Tells self.old (Event.Station id act.now) told.new) }
    {
        let input = StationIn::Act(copied_station_act(act));
        self.station_turn(id, input, None, step, told, line)
    }

    // An act of the core.
    fn core_act(
        &mut self,
        act: &CoreAct,
        step: u32,
        told: &mut Replies,
        line: &mut Line,
    ) -> Result<(), Proof>
        requires room { HasRoom self.old.stores }
        requires can { EventCan self.old (Event.Core act.now) }
        requires one { length told.old ≡ 1 }
        ensures happens { Happens self.old self.new (Event.Core act.now) step (told_in result line.new) }
        ensures grows { AddsFew self.old.stores self.new.stores }
        ensures told { OnOk result (Tells self.old (Event.Core act.now) told.new) }
    {
        let input = CoreIn::Act(copied_core_act(act));
        self.core_turn(input, None, step, told, line)
    }

    // A record that was sent comes to its address.
    fn deliver(
        &mut self,
        i: &i64,
        step: u32,
        told: &mut Replies,
        line: &mut Line,
    ) -> Result<(), Proof>
        requires room { HasRoom self.old.stores }
        requires can { EventCan self.old (Deliver i.now) }
        requires one { length told.old ≡ 1 }
        ensures happens { Happens self.old self.new (Deliver i.now) step (told_in result line.new) }
        ensures grows { AddsFew self.old.stores self.new.stores }
        ensures told { OnOk result (Tells self.old (Deliver i.now) told.new) }
    {
        let Some(sent) = self.network.record_at(i) else {
            told.clear();
            refused(Answer::NoRecord, step, line);
            return Ok(());
        };
        self.arrive(sent.to, sent.octets, sent.tuple, step, told, line)
    }

    // Octets come that nobody sent, unless somebody did.
    fn inject(
        &mut self,
        to: &Address,
        octets: &Octets,
        step: u32,
        told: &mut Replies,
        line: &mut Line,
    ) -> Result<(), Proof>
        requires room { HasRoom self.old.stores }
        requires may { TakesInjected to.now }
        requires can { EventCan self.old (Inject to.now octets.now) }
        requires one { length told.old ≡ 1 }
        ensures happens { Happens self.old self.new (Inject to.now octets.now) step (told_in result line.new) }
        ensures grows { AddsFew self.old.stores self.new.stores }
        ensures told { OnOk result (Tells self.old (Inject to.now octets.now) told.new) }
    {
        if let Some(number) = self.network.found(to.class(), octets.as_slice()) {
            told.clear();
            refused(Answer::Sent(number), step, line);
            return Ok(());
        }
        self.arrive(*to, copied(octets), None, step, told, line)
    }

    // Octets come to an address.
    fn arrive(
        &mut self,
        to: Address,
        octets: Octets,
        sender: Option<Use>,
        step: u32,
        told: &mut Replies,
        line: &mut Line,
    ) -> Result<(), Proof>
        requires room { HasRoom self.old.stores }
        requires can { ArrivalCan self.old to octets }
        requires one { length told.old ≡ 1 }
        ensures arrives { Arrives self.old self.new to octets sender step (told_in result line.new) }
        ensures grows { AddsFew self.old.stores self.new.stores }
        ensures told { told.new ≡ replies_by self.old.phone self.old.core self.old.stations (input_at to octets) }
    {
        match to {
            Address::PhoneNas => self.phone_turn(PhoneIn::Nas(octets), sender, step, told, line),
            Address::Phone(id, air, bearer) => self.phone_turn(
                PhoneIn::Air(id, air, bearer, octets),
                sender,
                step,
                told,
                line,
            ),
            Address::CoreNas => self.core_turn(CoreIn::Nas(octets), sender, step, told, line),
            Address::CoreS1 => self.core_turn(CoreIn::S1(octets), sender, step, told, line),
            Address::StationAir(id, air, bearer) => self.station_turn(
                id,
                StationIn::Air(air, bearer, octets),
                sender,
                step,
                told,
                line,
            ),
            Address::StationS1(id) => self.station_turn(
                id,
                StationIn::S1(octets),
                sender,
                step,
                told,
                line,
            ),
            Address::StationX2(id) => self.station_turn(
                id,
                StationIn::X2(octets),
                sender,
                step,
                told,
                line,
            ),
        }
    }

    // A step of a station.
    fn station_turn(
        &mut self,
        id: u8,
        input: StationIn,
        sender: Option<Use>,
        step: u32,
        told: &mut Replies,
        line: &mut Line,
    ) -> Result<(), Proof>
        requires room { HasRoom self.old.stores }
        requires input { StationTakes input }
        requires can { StationCan self.old id input }
        requires one { length told.old ≡ 1 }
        ensures turns { StationTurns self.old self.new id input sender step (told_in result line.new) }
        ensures grows { AddsFew self.old.stores self.new.stores }
        ensures told { told.new ≡ replies_by self.old.phone self.old.core self.old.stations (ActorIn.Station id input) }
    {
        let Some(place) = place_of(self.ids.as_slice(), id) else {
            told.clear();
            refused(Answer::NoUe, step, line);
            return Ok(());
        };
        told.station(&mut self.stations, place, id, input);
        self.network.settle(
            told.first(),
            sender,
            Holder::Station(id),
            Who::Station(id),
            step,
            line,
        )
    }

    // Makes room for what one event gives out. Where memory runs out nothing changes but the room: there was not this room, and std refused it.
    pub fn reserve(&mut self) -> Result<(), WorldFault>
        requires { HasPlace self.old.stores }
        ensures memory { IsOkUnless result WorldFault.Memory }
        ensures lacking { OnErr result (HasRoom self.old.stores → ⊥) }
        ensures refused { OnErr result WasRefused }
        ensures room { OnOk result (HasRoom self.new.stores) }
        ensures keeps { HasRoom self.old.stores → HasRoom self.new.stores }
        ensures same { self.new ≡ with_room self.old self.new }
    {
        self.network.reserve()
    }
}

// The place of the first station with this number.
pub(crate) fn place_of(ids: &[u8], id: u8) -> Option<usize>
    ensures place { result ≡ position (λ x. x == id) ids.now }
    ensures within { IfSome result (λ k. k < length ids.now) }
{
    ids.iter().position(|other| *other == id)
}

// The line of an event that reaches no actor.
fn refused(answer: Answer, step: u32, line: &mut Line)
    ensures { line.new ≡ line_of_reply step World None (reply_of answer) }
{
    tell(&ActorOut::of(answer), None, Who::World, step, line);
}

// The same act.
fn copied_phone_act(act: &PhoneAct) -> PhoneAct
    ensures { result ≡ act.now }
{
    act.clone().unwrap()
}

fn copied_station_act(act: &StationAct) -> StationAct
    ensures { result ≡ act.now }
{
    act.clone().unwrap()
}

fn copied_core_act(act: &CoreAct) -> CoreAct
    ensures { result ≡ act.now }
{
    act.clone().unwrap()
}

// The same octets.
fn copied(octets: &Octets) -> Octets
    ensures { result ≡ octets.now }
{
    octets.clone().unwrap()
}
