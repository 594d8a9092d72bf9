ghost use Rattle.growth.specs.Growth.{WasRefused};
ghost use Rattle.std.specs.Prelude.{◌≡◌, ◌≢◌, ◌<◌, ◌≤◌, [], ◌∷◌, ◌++◌, true, false, length, Some, None, IsTrue, IsOkUnless, OnOk, OnErr, IfOk};
ghost use Rattle.std.specs.List.{AllByRecursion as AllOf};
ghost use Rattle.lte_events.specs.Ranges.{has_station, IsEvent, IsSetup};
ghost use Rattle.lte_events.specs.Scenario.{most_events};
ghost use Rattle.lte_events.specs.declared.events.Event.{Event as AnEvent};
ghost use Rattle.lte_machine.specs.BothRuns.{written_run};
ghost use Rattle.lte_machine.specs.Carried.{run_value};
ghost use Rattle.lte_machine.specs.Ciphers.{annex_b};
ghost use Rattle.lte_machine.specs.Run.{Running, first_world};
ghost use Rattle.store_laws.specs.Records.{world_uses};
ghost use Rattle.store_laws.specs.Rows.{world_rows};
ghost use Rattle.lte_properties.specs.InOctets.{FarNeverThere};
ghost use Rattle.lte_world.specs.InOctets.{answers_of, NoTwoEqual, IsJoined, CommandsShare, PacketsOpen};
ghost use Rattle.lte_world.specs.Replies.{RepliedLast, IsOfSetup};
ghost use Rattle.lte_world.specs.Whole.{begun, run_of, told_of, turned, journal_after, AreFew, CanApply, InRun, phone_kenb_in, station_kenb_in, core_station_in, address_of};

use crate::WorldFault;
use crate::replies::Replies;
use crate::system::System;
use arrayvec::ArrayVec;
use key_terms::{Ladder, Proof};
use lte_events::{ActorIn, ActorOut, Answer, Event, Events, Line, Setup, Who};
use rec_base::Use;
use std::alloc::Global;
use std::marker::Model;

/// The whole system: one phone, its stations, one core, and every record that was ever sent.
///
/// A contract sees what it started with, the events that it took, the coincidence that ended it if one did, and
/// whether there is room for one event more. All else is what the run of the written machine in octets says of
/// these events, up to a coincidence: after one nothing is said of `ladder`, `records`, `uses`, the KeNBs and
/// `replies`.
#[derive(Drop)]
pub struct World {
    setup: Setup,
    journal: Events,
    system: System,
    over: Option<Proof>,
    ready: bool,
    replies: Replies,
}

impl Model for World {
    ghost use Rattle.std.specs.Prelude.{◌<◌, ◌≤◌, length, IsTrue, None};
    ghost use Rattle.std.specs.List.{AllByRecursion as AllOf};
    ghost use Rattle.lte_machine.specs.BothRuns.{octet_run};
    ghost use Rattle.lte_events.specs.Ranges.{IsEvent, IsSetup};
    ghost use Rattle.lte_world.specs.Systems.{HasRoom};
    ghost use Rattle.lte_world.specs.Replies.{RepliedLast, UnlessOver};
    ghost use Rattle.lte_world.specs.Networks.{Within};
    ghost use Rattle.lte_world.specs.Whole.{Whole, Stands, events_kept};

    ghost Value = { Whole };

    ghost view = { λ w. record { setup = w.setup; journal = w.journal.items; over = w.over; ready = w.ready } };

    ghost invariant = { λ w. IsSetup w.setup × AllOf IsEvent w.journal.items
        × (IsTrue w.ready → HasRoom w.system.stores × (0 < w.journal.spare))
        × Stands w.over (octet_run w.setup w.journal.items) w.system (length w.journal.items)
        × UnlessOver w.over (RepliedLast w.setup w.journal.items w.replies)
        × Within (events_kept w.over (length w.journal.items)) w.system.stores };
}

impl World {
    /// A system that begins with this setup, in which nothing has happened. It makes the list of the stations.
    /// `Memory` where std refuses that.
    pub fn new(alloc: Global, setup: &Setup) -> Result<World, WorldFault>
        requires { IsSetup setup.now }
        ensures memory { IsOkUnless result WorldFault.Memory }
        ensures refused { OnErr result WasRefused }
        ensures begins { IfOk result (λ w. w ≡ begun setup.now) }
        ensures run { IfOk result (λ w. run_of w ≡ Running (first_world setup.now)) }
    {
        let system = System::new(alloc, setup)?;
        Ok(World {
            setup: copied_setup(setup),
            journal: Events::new(alloc),
            system,
            over: None,
            ready: false,
            replies: Replies::new(),
        })
    }

    /// Takes one event: the actor acts, what it gives out is kept, and the line of the event is answered. It takes
    /// no memory. The event can happen to the system, there are fewer than 200,000 before it, and room was made
    /// for it.
    ///
    /// At a coincidence the answer is `Chance` with its two values, the event does not enter the journal, and every
    /// later event is answered with the same. `Memory` is never answered.
    pub fn apply(&mut self, event: &Event) -> Result<Line, WorldFault>
        requires { CanApply self.old event.now }
        // What is told of the event in the run in octets, a line or the coincidence.
        ensures says { result ≡ told_of self.old event.now }
        // And the run is then that run with the event.
        ensures run { run_of self.new ≡ turned self.old event.now }
        ensures journal { self.new.journal ≡ journal_after result self.old.journal event.now }
        ensures setup { self.new.setup ≡ self.old.setup }
        // It is the value of the written machine's run over terms.
        ensures written { OnOk result (run_of self.new ≡ run_value annex_b (written_run self.new.setup self.new.journal)) }
        ensures memory { result ≢ Err WorldFault.Memory }
        ensures room { self.new.ready ≡ false }
        // The step of a line is the number of events before it, and the line is the next answer of the world.
        ensures step { IfOk result (λ line. line.step ≡ length self.old.journal) }
        ensures answers { OnOk result (answers_of self.new ≡ answers_of self.old ++ result ∷ []) }
        // A phone that obeys a command, of a handover or of a change of the key, fewer than eight chain steps ahead shares the
        // target's key, and one that obeys one further ahead does not. The target is never behind the phone.
        ensures commands { IfOk result (λ line. CommandsShare self.new (length self.old.journal) line) }
        // Where it obeyed one further ahead, now or before, no context of the station has that air address, at any event.
        ensures never { OnOk result (FarNeverThere self.new.setup self.new.journal) }
        // An intact packet in a ready receiver's window opens to what was sent.
        ensures packets { IfOk result (λ line. PacketsOpen self.new (length self.old.journal) line) }
    {
        self.ready = false;
        if let Some(proof) = self.over {
            return Err(WorldFault::Chance(proof));
        }
        let step = self.journal.len() as u32;
        self.replies.keep_one();
        let mut line = Line {
            step,
            who: Who::World,
            answer: Answer::Done,
            sent: None,
            opened: None,
            note: None,
            alarm: false,
        };
        match self
            .system
            .happen(event, step, &mut self.replies, &mut line)
        {
            Ok(()) => {
                self.journal.put(event);
                Ok(line)
            }
            Err(proof) => {
                self.over = Some(proof);
                Err(WorldFault::Chance(proof))
            }
        }
    }

    /// Makes room for one event, which has fewer than 200,000 before it. Where memory runs out nothing changes, and what is told of
    /// any event later is what it would have been without this call. It runs out only where there was not this room and std refused it: each record
    /// that the event sends has a number, and so has each key that it derives.
    pub fn reserve(&mut self) -> Result<(), WorldFault>
        requires { length self.old.journal < most_events }
        ensures few { InRun (AreFew (length self.old.journal)) (run_of self.old) }
        ensures memory { IsOkUnless result WorldFault.Memory }
        ensures lacking { OnErr result (self.old.ready ≡ false) }
        ensures refused { OnErr result WasRefused }
        ensures room { OnOk result (IsTrue self.new.ready) }
        ensures same { OnOk result (self.new ≡ record self.old { ready = true }) }
        ensures err { OnErr result (self.new ≡ self.old) }
        ensures told { (event : AnEvent) → told_of self.new event ≡ told_of self.old event }
        // The setup and the events so far are in their ranges.
        ensures ranges { IsSetup self.old.setup × AllOf IsEvent self.old.journal }
    {
        match self.journal.reserve() {
            Ok(()) => {}
            Err(_) => return Err(WorldFault::Memory),
        }
        self.system.reserve()?;
        self.ready = true;
        Ok(())
    }

    /// The events that it took, in order.
    pub fn journal(&self) -> &Events
        ensures { result.now.items ≡ self.now.journal }
    {
        &self.journal
    }

    /// The keys that were derived, each once, in the order of their first derivation, each with all who held it.
    pub fn ladder(&self) -> &Ladder
        ensures { InRun (λ w. result.now.rows ≡ world_rows w) (run_of self.now) }
    {
        self.system.ladder()
    }

    /// How many records were sent.
    pub fn records(&self) -> u32
        ensures { InRun (λ w. result ≡ length w.sent) (run_of self.now) }
    {
        self.system.records()
    }

    /// The uses of keys in all that was sent, in order. Where no coincidence ended the world no two are equal.
    pub fn uses(&self) -> &[Use]
        ensures uses { InRun (λ w. result.now ≡ world_uses w) (run_of self.now) }
        ensures differ { self.now.over ≡ None → NoTwoEqual result.now }
    {
        self.system.uses()
    }

    /// The KeNB of the phone's connection, 32 octets. `None` where it has no connection.
    pub fn phone_kenb(&self) -> Option<[u8; 32]>
        ensures { InRun (λ w. result ≡ phone_kenb_in w) (run_of self.now) }
    {
        self.system.phone_kenb()
    }

    /// The KeNB of a station's context, 32 octets. `None` where it has no context, or no station of the setup has this
    /// number. Where the phone is connected at the air address of the context, it is the phone's.
    pub fn station_kenb(&self, id: u8) -> Option<[u8; 32]>
        ensures kenb { InRun (λ w. result ≡ station_kenb_in id w) (run_of self.now) }
        ensures elsewhere { self.now.over ≡ None → has_station self.now.setup.stations id ≡ false → result ≡ None }
        ensures joined { InRun (λ w. IsJoined id w → result ≡ phone_kenb_in w) (run_of self.now) }
    {
        self.system.station_kenb(id)
    }

    /// The station at which the core has the phone. `None` where it has no connection of the phone.
    pub fn core_station(&self) -> Option<u8>
        ensures { InRun (λ w. result ≡ core_station_in w) (run_of self.now) }
    {
        self.system.core_station()
    }

    /// For which air address a key of who acted in the last event is: where the phone is connected, and the number that a station drew last.
    pub fn address(&self, who: &Who) -> Option<(u8, u32)>
        ensures { InRun (λ w. result ≡ address_of w who.now) (run_of self.now) }
    {
        self.system.address(who)
    }

    /// The inputs of the last event with their replies: none, that of one actor, or at an authentication the phone's
    /// and the core's. Each is of an actor of the setup.
    pub fn replies(&self) -> &ArrayVec<(ActorIn, ActorOut), 2>
        ensures last { self.now.over ≡ None → RepliedLast self.now.setup self.now.journal result.now.items }
        ensures there { self.now.over ≡ None → AllOf (λ r. IsOfSetup self.now.setup r.0) result.now.items }
    {
        self.replies.listed()
    }
}

// The same setup.
fn copied_setup(setup: &Setup) -> Setup
    ensures { result ≡ setup.now }
{
    setup.clone().unwrap()
}
