// A system with two cores.
ghost use Rattle.growth.specs.Growth.{WasRefused};
ghost use Rattle.std.specs.Prelude.{◌≡◌, ◌≢◌, ◌<◌, ◌≤◌, [], ◌∷◌, ◌++◌, All, length, Err, IfOk, IsOkUnless, OnOk, OnErr, option_map};
ghost use Rattle.std.specs.List.{AllByRecursion as AllOf};
ghost use Rattle.lte_events.specs.Ranges.{IsEvent, IsSetup};
ghost use Rattle.lte_world.specs.Whole.{begun, run_of, told_of};
ghost use Rattle.core_relocation.specs.Run.{answer_in, heard_of, next_answer, run_after, state_in};
ghost use Rattle.core_relocation.specs.Whole.{CanTake, StillRuns, state_of, state_written};

use crate::cores::{Cores, Held};
use crate::lines::{TwoLine, acted};
use crate::log::Log;
use crate::taken::taken;
use lte_events::{Cells, Event, Events, Setup};
use lte_world::{World, WorldFault};
use std::alloc::Global;
use std::marker::Model;

/// A system of one phone, its stations and two cores, 0 and 1. A station belongs to one core. The context of the phone is one
/// value that one core holds, and is handed on at an S1 handover to a station of the other.
///
/// A contract sees the one system of all that is not a core's number, the core of each station with the cells and where the
/// context is, the events that were answered by a line, and who sent each record.
#[derive(Drop)]
pub struct Two {
    world: World,
    cores: Cores,
    log: Log,
}

impl Model for Two {
    ghost use Rattle.core_relocation.specs.Whole.{Keeps, TwoWhole};

    ghost Value = { TwoWhole };

    ghost view = { λ t. record { world = t.world; cores = t.cores; events = t.log.events; senders = t.log.senders } };

    ghost invariant = { λ t. Keeps (record { world = t.world; cores = t.cores; events = t.log.events; senders = t.log.senders }) };
}

impl Two {
    /// Two cores in which nothing has happened. Core 0 holds the context. The core of each station is 0 or 1. `Memory`
    /// where std refuses memory.
    pub fn new(alloc: Global, setup: &Setup, core_of: &[u8; 8]) -> Result<Two, WorldFault>
        requires begins { IsSetup setup.now }
        requires two { All (λ core. core ≤ 1) core_of.now }
        ensures memory { IsOkUnless result WorldFault.Memory }
        ensures refused { OnErr result WasRefused }
        ensures setup { IfOk result (λ t. t.world.setup ≡ setup.now) }
        ensures core_of { IfOk result (λ t. t.cores.core_of ≡ core_of.now) }
        ensures events { IfOk result (λ t. t.events ≡ []) }
        ensures runs { IfOk result StillRuns }
    {
        let world = World::new(alloc, setup)?;
        Ok(Two {
            world,
            cores: Cores {
                core_of: *core_of,
                cells: copied(&setup.cells),
                held: Held {
                    holder: 0,
                    next: None,
                },
            },
            log: Log::new(alloc),
        })
    }

    /// Takes one event. It goes to the system, or asks a core that does not hold the context, and then the system does not see
    /// it. Where std refuses memory nothing changes. A coincidence of the system is answered as it answers it.
    pub fn apply(&mut self, event: &Event) -> Result<TwoLine, WorldFault>
        requires { CanTake self.old event.now }
        ensures memory { result ≡ Err WorldFault.Memory → self.new ≡ self.old }
        ensures refused { result ≡ Err WorldFault.Memory → WasRefused }
        // By what the system tells of the event, and where the context is.
        ensures says { result ≢ Err WorldFault.Memory → result ≡ answer_in self.old.cores (state_of self.old) (run_of self.old.world) (told_of self.old.world event.now) event.now }
        ensures state { OnOk result (state_of self.new ≡ state_in self.old.cores (state_of self.old) (run_of self.old.world) (told_of self.old.world event.now) event.now) }
        // So it is in the run of the written machine, where no coincidence ended the system.
        ensures written { StillRuns self.old → result ≢ Err WorldFault.Memory → result ≡ next_answer self.old.world.setup self.old.cores.core_of (state_written self.old) event.now }
        ensures runs { OnOk result (StillRuns self.old → StillRuns self.new) }
        ensures setup { self.new.world.setup ≡ self.old.world.setup }
        ensures core_of { self.new.cores.core_of ≡ self.old.cores.core_of }
        ensures events { OnOk result (self.new.events ≡ self.old.events ++ event.now ∷ []) }
        // Where a coincidence or want of memory is answered, no event came in, no record has a sender more, and the context stays where it is.
        ensures no_event { OnErr result (self.new.events ≡ self.old.events) }
        ensures no_sender { OnErr result (self.new.senders ≡ self.old.senders) }
        ensures stays { OnErr result (self.new.cores ≡ self.old.cores) }
        ensures ranges { IsSetup self.old.world.setup × AllOf IsEvent self.old.world.journal }
    {
        self.log.reserve().map_err(|_| WorldFault::Memory)?;
        self.world.reserve()?;
        let from = self.log.station_in(event);
        if let Some(core) = self.cores.away(from, event) {
            self.log.put(event);
            return Ok(TwoLine::NotHere(core));
        }
        let core = self.cores.acting(from);
        let mut line = self.world.apply(event)?;
        let came = taken(self.world.replies().as_slice());
        self.cores.held = self.cores.held_after(core, event, &came, &line);
        line.step = self.log.events().len() as u32;
        self.log.sent(&line);
        self.log.put(event);
        let by = acted(line.who, core);
        Ok(TwoLine::By(line, by))
    }

    /// The core that holds the context. Where no coincidence ended the system it is that of the written machine's run.
    pub fn holder(&self) -> u8
        ensures value { result ≡ self.now.cores.held.holder }
        ensures written { StillRuns self.now → result ≡ (state_written self.now).held.holder }
    {
        self.cores.held.holder
    }

    /// The core to which the context is to go, if a relocation is open.
    pub fn next(&self) -> Option<u8>
        ensures value { result ≡ option_map (λ r. r.core) self.now.cores.held.next }
        ensures written { StillRuns self.now → result ≡ option_map (λ r. r.core) (state_written self.now).held.next }
    {
        match self.cores.held.next {
            Some(relocation) => Some(relocation.core),
            None => None,
        }
    }

    /// The events that were answered by a line, in their order.
    pub fn events(&self) -> &Events
        ensures { result.now.items ≡ self.now.events }
    {
        self.log.events()
    }

    /// The one system. Its journal is the list of the events that were not answered `NotHere`, and its run is that of the
    /// written machine over these events, where no coincidence ended it.
    pub fn world(&self) -> &World
        ensures value { result.now ≡ self.now.world }
        ensures journal { StillRuns self.now → self.now.world.journal ≡ heard_of self.now.world.setup self.now.cores.core_of self.now.events }
        ensures run { StillRuns self.now → run_of self.now.world ≡ run_after self.now.world.setup self.now.cores.core_of self.now.world.journal }
        ensures few { length self.now.world.journal ≤ length self.now.events }
    {
        let _ = &self.log;
        &self.world
    }
}

// The same cells.
fn copied(cells: &Cells) -> Cells
    ensures { result ≡ cells.now }
{
    cells.clone().unwrap()
}
