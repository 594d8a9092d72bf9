ghost use Rattle.std.specs.Prelude.{◌≡◌, ◌≢◌, ◌<◌, ◌≤◌, ◌⊎◌, [], Ok, Err, ℕ, IsTrue, IsErrOf, IfOk, OnOk, OnErr, IfSome, length};
ghost use Rattle.growth.specs.Growth.{WasRefused};
ghost use Rattle.edge_io.specs.Cause.{NoFault, Rose};
ghost use Rattle.edge_io.specs.Octets.{Grows, GrowsByPrefix, GrowsByProperPrefix};
ghost use Rattle.edge_io.specs.Used.{UsedAsSink};
ghost use Rattle.lte_machine.specs.Run.{Running, first_world};
ghost use Rattle.lte_world.specs.Whole.{begun, run_of};
ghost use Rattle.hub_drive.specs.Acts.{calls};
ghost use Rattle.hub_drive.specs.Driven.{PlanWent, Driven, WhereTold, AllStopped, FailedNext, GivesAll};
ghost use Rattle.hub_drive.specs.Exchanges.{roles_of};
ghost use Rattle.hub_drive.specs.Outside.{AllRun, HasStarted, outside};
ghost use Rattle.hub_drive.specs.Peerwise.{Made};
ghost use Rattle.lte_events.specs.Scenario.{IsScenario};
ghost use Rattle.run_report.specs.Report.{report_of};
ghost use Rattle.hub_drive.specs.Plan.{events_plan, plan_of};

use crate::happening::happen;
use crate::{DriveFault, set_up_all, start_all, stop_all};
use edge_io::{Peers, Sink};
use lte_events::{Events, Setup};
use lte_world::World;
use run_report::{Ending, write_end};
use std::alloc::Global;

/// Drives a scenario against peers: it starts one for the phone, one for the core and one for each station,
/// and sets them up. Then each event happens to the local system, its line is written, and each peer is told
/// what its actor is told; its reply is compared with the local actor's. Behind the last event the end of the
/// report is written. A coincidence ends the report, and no peer is told of it. All peers that were started are
/// stopped, whatever it answers.
///
/// The answer is how the report ends. `Memory` where memory was refused, `PeerFault` where a call on a peer failed,
/// `Differs` at the first reply that is not the local one, `WriteFault` where the output failed.
pub fn drive<P: Peers, W: Sink>(
    alloc: Global,
    setup: &Setup,
    events: &Events,
    peers: &mut P,
    out: &mut W,
) -> Result<Ending, DriveFault>
    requires is_scenario { IsScenario setup.now events.now.items }
    requires cells { 1 ≤ length setup.now.cells }
    requires none { IfSome (P.told peers.old) (λ t. t.roles ≡ []) }
    requires out_ready { IsTrue (W.told out.old).ready }

    // What was done of the plan, by the answer; and then the stops.
    ensures driven { Driven (plan_of setup.now events.now.items) result
        (outside (W.told out.old).written (P.told peers.old)) (outside (W.told out.new).written (P.told peers.new)) }

    // What is written is the report of the run: all of it, and how it ends, or a prefix where the answer is a fault. Where the
    // output failed, something was still to be written.
    ensures report { OnOk result (Grows (W.told out.old).written (W.told out.new).written (report_of setup.now events.now.items).text) }
    ensures ends { IfOk result (λ ending. ending ≡ (report_of setup.now events.now.items).ends) }
    ensures prefix { OnErr result (GrowsByPrefix (W.told out.old).written (W.told out.new).written (report_of setup.now events.now.items).text) }
    ensures short { result ≡ Err DriveFault.WriteFault → GrowsByProperPrefix (W.told out.old).written (W.told out.new).written (report_of setup.now events.now.items).text }

    // The roles that were started, and what each peer was sent and gave.
    ensures made { OnOk result (WhereTold (Made (calls (plan_of setup.now events.now.items).acts)) (P.told peers.old) (P.told peers.new)) }
    // The call that failed is the next one of the plan.
    ensures failed { result ≡ Err DriveFault.PeerFault → WhereTold (FailedNext (calls (plan_of setup.now events.now.items).acts)) (P.told peers.old) (P.told peers.new) }
    ensures stopped { IfSome (P.told peers.new) AllStopped }

    // The cause of each fault. With every other answer there was none. Memory is wanted where it was refused,
    // here or at the start of a peer.
    ensures memory { IsErrOf result DriveFault.Memory → WasRefused }
    ensures peer_cause { IsErrOf result DriveFault.PeerFault → Rose (P.faults peers.old) (P.faults peers.new) }
    ensures write_cause { IsErrOf result DriveFault.WriteFault → Rose (W.told out.old).write_faults (W.told out.new).write_faults }
    ensures no_peer_fault { result ≢ Err DriveFault.PeerFault → P.faults peers.new ≡ P.faults peers.old }
    ensures no_write_fault { result ≢ Err DriveFault.WriteFault → NoFault (W.told out.old) (W.told out.new) }
    ensures out { UsedAsSink (W.told out.old) (W.told out.new) }

    // Where each peer gives the local replies and nothing fails, all is done.
    ensures complete { IfSome (P.told peers.old) (λ t. GivesAll (calls (plan_of setup.now events.now.items).acts) t
        → (Rose (P.faults peers.old) (P.faults peers.new) → ⊥)
        → (Rose (W.told out.old).write_faults (W.told out.new).write_faults → ⊥)
        → (result ≡ Ok (report_of setup.now events.now.items).ends) ⊎ (result ≡ Err DriveFault.Memory)) }
{
    drive_plan(alloc, setup, events, peers, out)
}

// The same, by its plan.
fn drive_plan<P: Peers, W: Sink>(
    alloc: Global,
    setup: &Setup,
    events: &Events,
    peers: &mut P,
    out: &mut W,
) -> Result<Ending, DriveFault>
    requires is_scenario { IsScenario setup.now events.now.items }
    requires cells { 1 ≤ length setup.now.cells }
    requires none { IfSome (P.told peers.old) (λ t. t.roles ≡ []) }
    requires out_ready { IsTrue (W.told out.old).ready }
    ensures driven { Driven (plan_of setup.now events.now.items) result
        (outside (W.told out.old).written (P.told peers.old)) (outside (W.told out.new).written (P.told peers.new)) }
    ensures memory { IsErrOf result DriveFault.Memory → WasRefused }
    ensures peer_cause { IsErrOf result DriveFault.PeerFault → Rose (P.faults peers.old) (P.faults peers.new) }
    ensures write_cause { IsErrOf result DriveFault.WriteFault → Rose (W.told out.old).write_faults (W.told out.new).write_faults }
    ensures no_peer_fault { result ≢ Err DriveFault.PeerFault → P.faults peers.new ≡ P.faults peers.old }
    ensures no_write_fault { result ≢ Err DriveFault.WriteFault → NoFault (W.told out.old) (W.told out.new) }
    ensures out { UsedAsSink (W.told out.old) (W.told out.new) }
{
    let mut world = match World::new(alloc, setup) {
        Ok(world) => world,
        Err(_) => return Err(DriveFault::Memory),
    };
    let (count, result) = play(alloc, setup, events, &mut world, peers, out);
    stop_all(peers, count);
    drop(world);
    result
}

// The same but for the stops. It answers how many peers were started.
fn play<P: Peers, W: Sink>(
    alloc: Global,
    setup: &Setup,
    events: &Events,
    world: &mut World,
    peers: &mut P,
    out: &mut W,
) -> (u8, Result<Ending, DriveFault>)
    requires is_scenario { IsScenario setup.now events.now.items }
    requires cells { 1 ≤ length setup.now.cells }
    requires none { IfSome (P.told peers.old) (λ t. t.roles ≡ []) }
    requires out_ready { IsTrue (W.told out.old).ready }
    requires begun { world.old ≡ begun setup.now }
    requires run { run_of world.old ≡ Running (first_world setup.now) }
    ensures went { PlanWent (plan_of setup.now events.now.items) result.1
        (outside (W.told out.old).written (P.told peers.old)) (outside (W.told out.new).written (P.told peers.new)) }
    ensures running { AllRun result.0 (P.told peers.new) }
    ensures count { HasStarted result.0 (P.told peers.new) }
    ensures memory { IsErrOf result.1 DriveFault.Memory → WasRefused }
    ensures peer_cause { IsErrOf result.1 DriveFault.PeerFault → Rose (P.faults peers.old) (P.faults peers.new) }
    ensures write_cause { IsErrOf result.1 DriveFault.WriteFault → Rose (W.told out.old).write_faults (W.told out.new).write_faults }
    ensures no_peer_fault { result.1 ≢ Err DriveFault.PeerFault → P.faults peers.new ≡ P.faults peers.old }
    ensures no_write_fault { result.1 ≢ Err DriveFault.WriteFault → NoFault (W.told out.old) (W.told out.new) }
    ensures out { UsedAsSink (W.told out.old) (W.told out.new) }
{
    let (count, started) = start_all(peers, setup);
    match started {
        Ok(()) => {}
        Err(fault) => return (count, Err(fault)),
    }
    match set_up_all(peers, setup) {
        Ok(()) => {}
        Err(fault) => return (count, Err(fault)),
    }
    (count, run_all(alloc, setup, events, world, peers, out))
}

// Lets the events happen, and writes the end of the report.
fn run_all<P: Peers, W: Sink>(
    alloc: Global,
    setup: &Setup,
    events: &Events,
    world: &mut World,
    peers: &mut P,
    out: &mut W,
) -> Result<Ending, DriveFault>
    requires is_scenario { IsScenario setup.now events.now.items }
    requires running { AllRun (length (roles_of setup.now)) (P.told peers.old) }
    requires out_ready { IsTrue (W.told out.old).ready }
    requires begun { world.old ≡ begun setup.now }
    requires run { run_of world.old ≡ Running (first_world setup.now) }
    ensures went { PlanWent (events_plan setup.now 0 (Running (first_world setup.now)) events.now.items) result
        (outside (W.told out.old).written (P.told peers.old)) (outside (W.told out.new).written (P.told peers.new)) }
    ensures memory { IsErrOf result DriveFault.Memory → WasRefused }
    ensures peer_cause { IsErrOf result DriveFault.PeerFault → Rose (P.faults peers.old) (P.faults peers.new) }
    ensures write_cause { IsErrOf result DriveFault.WriteFault → Rose (W.told out.old).write_faults (W.told out.new).write_faults }
    ensures no_peer_fault { result ≢ Err DriveFault.PeerFault → P.faults peers.new ≡ P.faults peers.old }
    ensures no_write_fault { result ≢ Err DriveFault.WriteFault → NoFault (W.told out.old) (W.told out.new) }
    ensures out { UsedAsSink (W.told out.old) (W.told out.new) }
{
    for number in 0..events.len() {
        let event = events.at(number);
        match happen(alloc, setup, world, &event, peers, out)? {
            Ending::Done => {}
            Ending::Chance => return Ok(Ending::Chance),
        }
    }
    write_end(alloc, world, out)?;
    Ok(Ending::Done)
}
