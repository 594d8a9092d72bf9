// What is kept beside the actors: the records sent, the ladder and the uses.
ghost use Rattle.growth.specs.Growth.{WasRefused};
ghost use Rattle.std.specs.Prelude.{◌≡◌, ◌+◌, ◌<◌, ◌≤◌, ◌^◌, [], ◌++◌, length, option_map, Some, None, IsOkUnless, OnOk, OnErr};
ghost use Rattle.key_terms.specs.Ladder.{IsHolder};
ghost use Rattle.lte_machine.specs.Calls.{use_in, line_of_reply};
ghost use Rattle.lte_machine.specs.Tuples.{tuple_coincidence};
ghost use Rattle.std.specs.Str.{bytes_eq};
ghost use Rattle.lte_machine.specs.Tuples as tuples;
ghost use Rattle.lte_world.specs.Networks.{AddsFew, HasPlace};
ghost use Rattle.lte_world.specs.Systems.{HasRoom};
ghost use Rattle.net_bag.specs.Bag.{first_sent};
ghost use Rattle.lte_machine.specs.World.{record_at};
ghost use Rattle.lte_world.specs.Enrolling.{EnrolledAs};
ghost use Rattle.lte_world.specs.Settling.{Settles, SettledAs, coincidence_told, told_in, sent_in, number_of, at_place};
ghost use Rattle.std.specs.Prelude.{List};
ghost use Rattle.net_bag.specs.declared.view.BagView.{BagView};

use crate::WorldFault;
use crate::noting::{add_all, hold_all, hold_one, hold_received};
use crate::shelf::Shelf;
use key_terms::{Holder, Ladder, LadderFault, Proof, Row};
use lte_events::{ActorOut, Class, Line, Who};
use net_bag::{Bag, BagView};
use rec_base::{Use, UserText};
use std::alloc::Global;
use std::marker::Model;

// The records that were sent, the ladder, and the uses of keys.
#[derive(Drop)]
pub(crate) struct Network {
    pub bag: Bag,
    pub(crate) ladder: Ladder,
    pub(crate) uses: Shelf<Use>,
}

// What comes of a KASME.
pub(crate) enum Enrolled {
    // It has a row now.
    New,
    // It has one already, as a root.
    Repeated(Row),
    // A derived key has its octets.
    Coincidence(Proof),
}

impl Model for Network {
    ghost use Rattle.lte_world.specs.Networks.{Stores};

    ghost Value = { Stores };

    ghost view = { λ n. record {
      records = n.bag.records;
      rows = n.ladder.rows;
      uses = n.uses.items;
      record_room = n.bag.spare;
      row_room = n.ladder.spare;
      use_room = n.uses.spare;
    } };
}

impl Network {
    // Nothing was sent, derived or used. It takes no memory.
    pub fn new(alloc: Global) -> Network
        ensures records { result.records ≡ [] }
        ensures rows { result.rows ≡ [] }
        ensures uses { result.uses ≡ [] }
    {
        Network {
            bag: Bag::new(alloc),
            ladder: Ladder::new(alloc),
            uses: Shelf::new(alloc),
        }
    }

    // Makes room for what one event gives out: a record, 12 derivations or a root, and 2 uses. Where memory runs out nothing
    // changes but the room: there was not this room, and std refused it.
    pub fn reserve(&mut self) -> Result<(), WorldFault>
        requires { HasPlace self.old }
        ensures memory { IsOkUnless result WorldFault.Memory }
        ensures lacking { OnErr result (HasRoom self.old → ⊥) }
        ensures refused { OnErr result WasRefused }
        ensures room { OnOk result (HasRoom self.new) }
        ensures keeps { HasRoom self.old → HasRoom self.new }
        ensures records { self.new.records ≡ self.old.records }
        ensures rows { self.new.rows ≡ self.old.rows }
        ensures uses { self.new.uses ≡ self.old.uses }
    {
        match self.bag.reserve() {
            Ok(()) => {}
            Err(_) => return Err(WorldFault::Memory),
        }
        match self.ladder.reserve(12) {
            Ok(()) => {}
            Err(_) => return Err(WorldFault::Memory),
        }
        match self.uses.reserve(2) {
            Ok(()) => Ok(()),
            Err(_) => Err(WorldFault::Memory),
        }
    }

    // Takes the KASME of an authentication, which phone and core then hold.
    pub fn enroll(&mut self, root: [u8; 32]) -> Enrolled
        requires { 0 < self.old.row_room }
        ensures enrolled { EnrolledAs self.old self.new root result }
        ensures grows { AddsFew self.old self.new }
    {
        match self.ladder.root(root) {
            Ok(_) => {}
            Err(LadderFault::Memory) => unreachable!(),
            Err(LadderFault::RepeatedRoot(row)) => return Enrolled::Repeated(row),
            Err(LadderFault::Coincidence(row, _)) => return Enrolled::Coincidence(Proof::RootIsRow(
                row, root,
            )),
        }
        hold_one(&mut self.ladder, Holder::Phone, &root);
        hold_one(&mut self.ladder, Holder::Core, &root);
        Enrolled::New
    }

    // A record that was sent, by its number, or from the newest back where that is negative.
    pub fn record_at(&self, i: &i64) -> Option<BagView>
        ensures { result ≡ record_at i.now self.now.records }
    {
        let place = place_of(i, self.bag.len())?;
        self.bag.get(place)
    }

    // The number of the first record that has these octets.
    pub fn found(&self, class: Class, octets: &[u8]) -> Option<u32>
        ensures { result ≡ first_sent self.now.records class octets.now }
    {
        self.bag.find(class, octets)
    }

    // Keeps what an actor gave out: the record that it sent, its uses, its derivations and who holds them. The line is written in
    // place, as a line is large. Ends with a coincidence, of the record that it accepted before one of a derivation.
    pub fn settle(
        &mut self,
        out: &ActorOut,
        sender: Option<Use>,
        holder: Holder,
        who: Who,
        step: u32,
        line: &mut Line,
    ) -> Result<(), Proof>
        requires records { 0 < self.old.record_room }
        requires rows { 12 ≤ self.old.row_room }
        requires uses { 2 ≤ self.old.use_room }
        requires holder { IsHolder holder }
        requires awaits { Settles self.old out.now }
        ensures settled { SettledAs self.old self.new out.now sender holder who step (told_in result line.new) }
        ensures grows { AddsFew self.old self.new }
    {
        accepted_so(out.accepted, sender)?;
        add_all(&mut self.ladder, out.derived.as_slice())?;
        hold_received(&mut self.ladder, holder, &out.received);
        hold_all(&mut self.ladder, holder, out.derived.as_slice());
        let sent = keep(&mut self.bag, out);
        take_uses(&mut self.uses, out.used.as_slice());
        tell(out, sent, who, step, line);
        Ok(())
    }
}

// Keeps the record that was sent, if one was: its number and its interface.
fn keep(bag: &mut Bag, out: &ActorOut) -> Option<(u32, Class)>
    requires room { 0 < bag.old.spare }
    ensures records { bag.new.records ≡ bag.old.records ++ sent_in out.now.tuple out.now.sent }
    ensures number { result ≡ number_of (length bag.old.records) out.now.sent }
{
    let Some(rec) = &out.sent else {
        return None;
    };
    let number = bag.put(rec, out.tuple.as_ref());
    Some((number, rec.to.class()))
}

// The number of a record among so many, from the newest back where it is negative.
fn place_of(i: &i64, len: u32) -> Option<u32>
    ensures { (records : List BagView) → length records ≡ len → at_place records result ≡ record_at i.now records }
{
    if *i >= 0 {
        return u32::try_from(*i).ok();
    }
    let back = i64::from(len) + *i;
    if back < 0 {
        return None;
    }
    Some(back as u32)
}

// Keeps uses of keys.
fn take_uses(uses: &mut Shelf<Use>, used: &[Use])
    requires room { length used.now ≤ uses.old.spare }
    ensures { uses.new.items ≡ uses.old.items ++ used.now }
{
    for taken in used {
        uses.put(*taken);
    }
}

// The coincidence of a record that was accepted under another use than its sender's, if it is one.
fn accepted_so(accepted: Option<Use>, sender: Option<Use>) -> Result<(), Proof>
    ensures { result ≡ coincidence_told (tuple_coincidence bytes_eq (option_map use_in sender) (option_map use_in accepted)) }
{
    let Some(receiver) = accepted else {
        return Ok(());
    };
    if same_sender(&sender, &receiver) {
        Ok(())
    } else {
        Err(Proof::Tuples(sender, receiver))
    }
}

// Whether the sender's use is the receiver's.
fn same_sender(sender: &Option<Use>, receiver: &Use) -> bool
    ensures { result ≡ tuples.same_sender bytes_eq (option_map use_in sender.now) (use_in receiver.now) }
{
    match sender {
        None => false,
        Some(sender) => *receiver == *sender,
    }
}

// What a report says of a reply.
pub(crate) fn tell(out: &ActorOut, sent: Option<(u32, Class)>, who: Who, step: u32, line: &mut Line)
    ensures { line.new ≡ line_of_reply step who sent out.now }
{
    line.step = step;
    line.who = who;
    line.answer = out.answer;
    line.sent = sent;
    put_text(&out.opened, &mut line.opened);
    line.note = out.note;
    line.alarm = out.alarm;
}

// The same text, or none. What is not there is not written, and what no call may need is not filled.
fn put_text(text: &Option<UserText>, place: &mut Option<UserText>)
    ensures { place.new ≡ text.now }
{
    match text {
        Some(text) => put_some(text, place),
        None => {
            if place.is_some() {
                clear(place);
            }
        }
    }
}

fn put_some(text: &UserText, place: &mut Option<UserText>)
    ensures { place.new ≡ Some text.now }
{
    *place = Some(copied_text(text));
}

fn clear(place: &mut Option<UserText>)
    ensures { place.new ≡ None }
{
    *place = None;
}

fn copied_text(text: &UserText) -> UserText
    ensures { result ≡ text.now }
{
    text.clone().unwrap()
}
