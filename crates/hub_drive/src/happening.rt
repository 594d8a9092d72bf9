// One event, before peers.
ghost use Rattle.std.specs.Prelude.{◌≡◌, ◌≢◌, ◌≤◌, Ok, Err, ℕ, IsTrue, IsErrOf, length};
ghost use Rattle.growth.specs.Growth.{WasRefused};
ghost use Rattle.edge_io.specs.Cause.{NoFault, Rose};
ghost use Rattle.edge_io.specs.Used.{UsedAsSink};
ghost use Rattle.lte_world.specs.Whole.{run_of};
ghost use Rattle.run_report.specs.Events.{told_of};
ghost use Rattle.run_report.specs.Takes.{CanTake, Takes};
ghost use Rattle.hub_drive.specs.Driven.{PlanWent};
ghost use Rattle.hub_drive.specs.Exchanges.{roles_of};
ghost use Rattle.hub_drive.specs.Outside.{AllRun, outside};
ghost use Rattle.hub_drive.specs.Plan.{event_plan, replies_at};

use crate::{DriveFault, tell_all};
use edge_io::{Peers, Sink};
use lte_events::{Event, Setup};
use lte_world::World;
use run_report::{Ending, write_event};
use std::alloc::Global;

// Lets one event happen: what is told of it is written, and then the peers of its actors are told its
// inputs. At a coincidence no peer is told.
pub(crate) fn happen<P: Peers, W: Sink>(
    alloc: Global,
    setup: &Setup,
    world: &mut World,
    event: &Event,
    peers: &mut P,
    out: &mut W,
) -> Result<Ending, DriveFault>
    requires out_ready { IsTrue (W.told out.old).ready }
    requires same { world.old.setup ≡ setup.now }
    requires can { CanTake world.old event.now }
    requires running { AllRun (length (roles_of setup.now)) (P.told peers.old) }
    ensures went { PlanWent (event_plan setup.now (length world.old.journal) (told_of (run_of world.old) event.now) (replies_at (run_of world.old) event.now)) result
        (outside (W.told out.old).written (P.told peers.old)) (outside (W.told out.new).written (P.told peers.new)) }
    ensures takes { result ≡ Ok Ending.Done → Takes world.old event.now world.new }
    ensures memory { IsErrOf result DriveFault.Memory → WasRefused }
    ensures peer_cause { IsErrOf result DriveFault.PeerFault → Rose (P.faults peers.old) (P.faults peers.new) }
    ensures write_cause { IsErrOf result DriveFault.WriteFault → Rose (W.told out.old).write_faults (W.told out.new).write_faults }
    ensures no_peer_fault { result ≢ Err DriveFault.PeerFault → P.faults peers.new ≡ P.faults peers.old }
    ensures no_write_fault { result ≢ Err DriveFault.WriteFault → NoFault (W.told out.old) (W.told out.new) }
    ensures out { UsedAsSink (W.told out.old) (W.told out.new) }
{
    let step = world.journal().len() as u32;
    match write_event(alloc, world, event, out)? {
        Ending::Done => {}
        Ending::Chance => return Ok(Ending::Chance),
    }
    tell_all(peers, setup, step, world.replies().as_slice())?;
    Ok(Ending::Done)
}
