// Setting up the peers.
ghost use Rattle.std.specs.Prelude.{◌≡◌, ◌≢◌, ◌+◌, ◌≤◌, ◌<◌, ℕ, Option, List, [], length, All, Some, Err, IsErrOf};
ghost use Rattle.std.specs.List.{slice_get};
ghost use Rattle.edge_io.specs.Cause.{Rose};
ghost use Rattle.role_wire.specs.Ranges.{IsSetup};
ghost use Rattle.hub_drive.specs.Exchanges.{core_seed, seeds_of, set_ups};
ghost use Rattle.hub_drive.specs.Outside.{AllRun, outside};
ghost use Rattle.hub_drive.specs.Went.{Went};

use crate::DriveFault;
use crate::calling::exchange;
use crate::starting::peers_of;
use alg_choice::Priority;
use edge_io::Peers;
use lte_events::{Cells, FirstNcc, Setup};
use role_wire::{RoleSetup, setup_frame, setup_reply};

// What a peer starts with.
fn seed_at(setup: &Setup, peer: u8) -> RoleSetup
    requires { peer < length (seeds_of setup.now) }
    ensures { slice_get (seeds_of setup.now) peer ≡ Some result }
{
    let cells = copied(&setup.cells);
    match peer {
        0 => RoleSetup::Phone(setup.caps),
        1 => core_seed(
            setup.core_first_ncc,
            setup.core_priority,
            setup.core_first,
            cells,
        ),
        _ => {
            let station = &setup.stations.as_slice()[peer as usize - 2];
            RoleSetup::Station(station.priority, station.first, cells)
        }
    }
}

// What a core starts with.
fn core_seed(first_ncc: FirstNcc, priority: Priority, first: u32, cells: Cells) -> RoleSetup
    ensures { result ≡ core_seed first_ncc priority first cells }
{
    match first_ncc {
        FirstNcc::One => RoleSetup::Core(priority, first, cells),
        FirstNcc::Two => RoleSetup::StandardCore(priority, first, cells),
    }
}

// The same cells.
fn copied(cells: &Cells) -> Cells
    ensures { result ≡ cells.now }
{
    cells.clone().unwrap()
}

/// Sets up all peers of a setup, in order, to the first whose reply is not the wanted one: `Differs`.
/// `PeerFault` where a call on a peer failed.
pub fn set_up_all<P: Peers>(peers: &mut P, setup: &Setup) -> Result<(), DriveFault>
    requires running { AllRun (length (seeds_of setup.now)) (P.told peers.old) }
    requires seeds { All IsSetup (seeds_of setup.now) }
    ensures went { (written : Option (List ℕ)) → Went (set_ups 0 (seeds_of setup.now)) result
        (outside written (P.told peers.old)) (outside written (P.told peers.new)) }
    ensures cause { IsErrOf result DriveFault.PeerFault → Rose (P.faults peers.old) (P.faults peers.new) }
    ensures no_write { IsErrOf result DriveFault.WriteFault → ⊥ }
    ensures no_memory { IsErrOf result DriveFault.Memory → ⊥ }
    ensures no_fault { result ≢ Err DriveFault.PeerFault → P.faults peers.new ≡ P.faults peers.old }
{
    let ready = setup_reply();
    for peer in 0..peers_of(setup) {
        let frame = setup_frame(&seed_at(setup, peer));
        exchange(peers, None, peer, &frame, &ready)?;
    }
    Ok(())
}
