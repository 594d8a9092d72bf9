// Starting the peers of a setup, and stopping those that were started.
ghost use Rattle.std.specs.Prelude.{◌≡◌, ◌≢◌, ◌+◌, ◌≤◌, ◌<◌, ℕ, Option, List, [], length, Some, Err, IfSome, IsErrOf, OnOk};
ghost use Rattle.std.specs.List.{slice_get};
ghost use Rattle.std.specs.Option.{option_map};
ghost use Rattle.growth.specs.Growth.{WasRefused};
ghost use Rattle.edge_io.specs.Cause.{Rose};
ghost use Rattle.hub_drive.specs.Exchanges.{roles_of, starts};
ghost use Rattle.hub_drive.specs.Outside.{AllRun, HasStarted, outside, stopped_below};
ghost use Rattle.hub_drive.specs.Went.{Went};

use crate::DriveFault;
use crate::calling::start;
use edge_io::{Peers, Role};
use lte_events::Setup;

/// How many peers a setup has: the phone, the core and the stations.
pub fn peers_of(setup: &Setup) -> u8
    ensures { result ≡ length (roles_of setup.now) }
{
    2 + setup.stations.as_slice().len() as u8
}

// The role of a peer.
fn role_at(setup: &Setup, peer: u8) -> Role
    requires { peer < length (roles_of setup.now) }
    ensures { slice_get (roles_of setup.now) peer ≡ Some result }
{
    match peer {
        0 => Role::Phone,
        1 => Role::Core,
        _ => Role::Station(setup.stations.as_slice()[peer as usize - 2].id),
    }
}

/// Starts all peers of a setup, in order, to the first that is not started. It answers how many were
/// started. `Memory` where memory was refused, `PeerFault` where a start failed.
pub fn start_all<P: Peers>(peers: &mut P, setup: &Setup) -> (u8, Result<(), DriveFault>)
    requires none { IfSome (P.told peers.old) (λ t. t.roles ≡ []) }
    ensures went { (written : Option (List ℕ)) → Went (starts (roles_of setup.now)) result.1
        (outside written (P.told peers.old)) (outside written (P.told peers.new)) }
    ensures running { AllRun result.0 (P.told peers.new) }
    ensures count { HasStarted result.0 (P.told peers.new) }
    ensures all { OnOk result.1 (result.0 ≡ length (roles_of setup.now)) }
    ensures cause { IsErrOf result.1 DriveFault.PeerFault → Rose (P.faults peers.old) (P.faults peers.new) }
    ensures no_write { IsErrOf result.1 DriveFault.WriteFault → ⊥ }
    ensures memory { IsErrOf result.1 DriveFault.Memory → WasRefused }
    ensures no_fault { result.1 ≢ Err DriveFault.PeerFault → P.faults peers.new ≡ P.faults peers.old }
{
    let count = peers_of(setup);
    for peer in 0..count {
        match start(peers, role_at(setup, peer)) {
            Ok(()) => {}
            Err(fault) => return (peer, Err(fault)),
        }
    }
    (count, Ok(()))
}

/// Stops the peers whose numbers are below `count`.
pub fn stop_all<P: Peers>(peers: &mut P, count: u8)
    requires { AllRun count (P.told peers.old) }
    ensures told { P.told peers.new ≡ option_map (stopped_below count) (P.told peers.old) }
    ensures no_fault { P.faults peers.new ≡ P.faults peers.old }
{
    for peer in 0..count {
        peers.stop(peer);
    }
}
