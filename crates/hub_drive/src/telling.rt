// Telling the peers the inputs of an event.
ghost use Rattle.std.specs.Prelude.{◌≡◌, ◌≢◌, ◌+◌, ◌≤◌, ◌<◌, ℕ, Option, List, [], length, All, Err, IsErrOf};
ghost use Rattle.edge_io.specs.Cause.{Rose};
ghost use Rattle.hub_drive.specs.Exchanges.{HasActor, peer_of, station_peer, replied, roles_of};
ghost use Rattle.hub_drive.specs.Outside.{AllRun, outside};
ghost use Rattle.hub_drive.specs.Went.{Went};

use crate::DriveFault;
use crate::calling::exchange;
use edge_io::Peers;
use lte_events::{ActorIn, ActorOut, Setup, StationSetup};
use role_wire::{actor_frame, reply_frame};

// The peer of a station.
fn station_peer(id: u8, stations: &[StationSetup]) -> u8
    requires { length stations.now ≤ 8 }
    ensures { result ≡ station_peer 2 id stations.now }
{
    let mut peer = 2;
    for station in stations {
        if station.id == id {
            return peer;
        }
        peer += 1;
    }
    peer
}

// The peer of the actor that an input goes to.
fn peer_of(setup: &Setup, input: &ActorIn) -> u8
    ensures { result ≡ peer_of setup.now input.now }
{
    match input {
        ActorIn::Phone(_) => 0,
        ActorIn::Core(_) => 1,
        ActorIn::Station(id, _) => station_peer(*id, setup.stations.as_slice()),
    }
}

/// Tells the peers the inputs of an event, in order, to the first whose reply is not the wanted one: `Differs`.
/// `PeerFault` where a call on a peer failed.
pub fn tell_all<P: Peers>(
    peers: &mut P,
    setup: &Setup,
    step: u32,
    replies: &[(ActorIn, ActorOut)],
) -> Result<(), DriveFault>
    requires running { AllRun (length (roles_of setup.now)) (P.told peers.old) }
    requires inputs { All (λ r. HasActor setup.now r.0) replies.now }
    ensures went { (written : Option (List ℕ)) → Went (replied setup.now step replies.now) result
        (outside written (P.told peers.old)) (outside written (P.told peers.new)) }
    ensures cause { IsErrOf result DriveFault.PeerFault → Rose (P.faults peers.old) (P.faults peers.new) }
    ensures no_write { IsErrOf result DriveFault.WriteFault → ⊥ }
    ensures no_memory { IsErrOf result DriveFault.Memory → ⊥ }
    ensures no_fault { result ≢ Err DriveFault.PeerFault → P.faults peers.new ≡ P.faults peers.old }
{
    for (input, out) in replies {
        let frame = actor_frame(input);
        let reply = reply_frame(out);
        exchange(peers, Some(step), peer_of(setup, input), &frame, &reply)?;
    }
    Ok(())
}
