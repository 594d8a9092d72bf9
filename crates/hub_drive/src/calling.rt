// One call on the peers, and the exchange of one frame.
ghost use Rattle.std.specs.Prelude.{◌≡◌, ◌≢◌, ◌+◌, ◌≤◌, ℕ, Option, List, [], ◌∷◌, ◌++◌, length, take, drop, Err, IfSome, IsErrOf, OnOk, OnErr};
ghost use Rattle.growth.specs.Growth.{WasRefused};
ghost use Rattle.edge_io.specs.Cause.{Rose};
ghost use Rattle.edge_io.specs.Peers.{IsRunning};
ghost use Rattle.hub_drive.specs.Acts.{Wanted, Starting, Sending, Receiving, Calling};
ghost use Rattle.hub_drive.specs.Exchanges.{exchange};
ghost use Rattle.hub_drive.specs.Outside.{AllRun, HasStarted, outside};
ghost use Rattle.hub_drive.specs.Went.{Went};

use crate::DriveFault;
use edge_io::{Peers, Role, StartFault};
use rec_fields::list_of;
use role_wire::Frame;

// Starts a peer.
pub(crate) fn start<P: Peers>(peers: &mut P, role: Role) -> Result<(), DriveFault>
    ensures went { (written : Option (List ℕ)) → Went (Calling (Starting role) ∷ []) result
        (outside written (P.told peers.old)) (outside written (P.told peers.new)) }
    ensures counted { OnOk result ((count : ℕ) → HasStarted count (P.told peers.old) → HasStarted (count + 1) (P.told peers.new)) }
    ensures uncounted { OnErr result ((count : ℕ) → HasStarted count (P.told peers.old) → HasStarted count (P.told peers.new)) }
    ensures running { OnOk result ((count : ℕ) → HasStarted count (P.told peers.old) → AllRun count (P.told peers.old) → AllRun (count + 1) (P.told peers.new)) }
    ensures cause { IsErrOf result DriveFault.PeerFault → Rose (P.faults peers.old) (P.faults peers.new) }
    ensures no_write { IsErrOf result DriveFault.WriteFault → ⊥ }
    ensures memory { IsErrOf result DriveFault.Memory → WasRefused }
    ensures no_fault { result ≢ Err DriveFault.PeerFault → P.faults peers.new ≡ P.faults peers.old }
{
    match peers.start(role) {
        Ok(_) => Ok(()),
        Err(StartFault::Memory) => Err(DriveFault::Memory),
        Err(StartFault::Failed) => Err(DriveFault::PeerFault),
    }
}

// Sends a frame to a peer.
fn send<P: Peers>(peers: &mut P, peer: u8, frame: &Frame) -> Result<(), DriveFault>
    requires { IfSome (P.told peers.old) (IsRunning peer) }
    ensures went { (written : Option (List ℕ)) → Went (Calling (Sending peer frame.now) ∷ []) result
        (outside written (P.told peers.old)) (outside written (P.told peers.new)) }
    ensures cause { IsErrOf result DriveFault.PeerFault → Rose (P.faults peers.old) (P.faults peers.new) }
    ensures no_write { IsErrOf result DriveFault.WriteFault → ⊥ }
    ensures no_memory { IsErrOf result DriveFault.Memory → ⊥ }
    ensures no_fault { result ≢ Err DriveFault.PeerFault → P.faults peers.new ≡ P.faults peers.old }
{
    match peers.send(peer, frame.as_slice()) {
        Ok(()) => Ok(()),
        Err(_) => Err(DriveFault::PeerFault),
    }
}

// Takes a part of a reply, and compares it: what stands before the part in the wanted reply, the part,
// and what stands behind.
fn receive<P: Peers>(
    peers: &mut P,
    step: Option<u32>,
    peer: u8,
    reply: &Frame,
    before: &[u8],
    part: &[u8],
) -> Result<(), DriveFault>
    requires running { IfSome (P.told peers.old) (IsRunning peer) }
    requires within { length before.now + length part.now ≤ 4098 }
    ensures went { (written : Option (List ℕ)) (behind : List ℕ)
        → reply.now ≡ before.now ++ (part.now ++ behind)
        → Went (Calling (Receiving peer (record { step = step; before = before.now; octets = part.now; behind = behind })) ∷ []) result
        (outside written (P.told peers.old)) (outside written (P.told peers.new)) }
    ensures cause { IsErrOf result DriveFault.PeerFault → Rose (P.faults peers.old) (P.faults peers.new) }
    ensures no_write { IsErrOf result DriveFault.WriteFault → ⊥ }
    ensures no_memory { IsErrOf result DriveFault.Memory → ⊥ }
    ensures no_fault { result ≢ Err DriveFault.PeerFault → P.faults peers.new ≡ P.faults peers.old }
{
    let mut buf = [0u8; 4098];
    receive_in(
        peers,
        step,
        peer,
        reply,
        before,
        part,
        &mut buf[..part.len()],
    )
}

// The same, into octets of the length of the part.
fn receive_in<P: Peers>(
    peers: &mut P,
    step: Option<u32>,
    peer: u8,
    reply: &Frame,
    before: &[u8],
    part: &[u8],
    received: &mut [u8],
) -> Result<(), DriveFault>
    requires running { IfSome (P.told peers.old) (IsRunning peer) }
    requires within { length before.now + length part.now ≤ 4098 }
    requires room { length received.old ≡ length part.now }
    ensures went { (written : Option (List ℕ)) (behind : List ℕ)
        → reply.now ≡ before.now ++ (part.now ++ behind)
        → Went (Calling (Receiving peer (record { step = step; before = before.now; octets = part.now; behind = behind })) ∷ []) result
        (outside written (P.told peers.old)) (outside written (P.told peers.new)) }
    ensures cause { IsErrOf result DriveFault.PeerFault → Rose (P.faults peers.old) (P.faults peers.new) }
    ensures no_write { IsErrOf result DriveFault.WriteFault → ⊥ }
    ensures no_memory { IsErrOf result DriveFault.Memory → ⊥ }
    ensures no_fault { result ≢ Err DriveFault.PeerFault → P.faults peers.new ≡ P.faults peers.old }
{
    match peers.receive(peer, received) {
        Ok(()) => {}
        Err(_) => return Err(DriveFault::PeerFault),
    }
    if &*received == part {
        return Ok(());
    }
    Err(differs(step, reply, before, received))
}

// The fault of a part of a reply that came in place of another.
fn differs(step: Option<u32>, reply: &Frame, before: &[u8], received: &[u8]) -> DriveFault
    requires { length before.now + length received.now ≤ 4098 }
    ensures { result ≡ DriveFault.Differs step reply.now (before.now ++ received.now) }
{
    let mut got: Frame = list_of(before);
    got.append(received);
    DriveFault::Differs {
        step,
        wanted: list_of(reply.as_slice()),
        got,
    }
}

// Sends a frame to a peer, and compares its reply with the wanted one: the length first.
pub(crate) fn exchange<P: Peers>(
    peers: &mut P,
    step: Option<u32>,
    peer: u8,
    frame: &Frame,
    reply: &Frame,
) -> Result<(), DriveFault>
    requires running { IfSome (P.told peers.old) (IsRunning peer) }
    requires has_length { 2 ≤ length reply.now }
    ensures went { (written : Option (List ℕ)) → Went (exchange step peer frame.now reply.now) result
        (outside written (P.told peers.old)) (outside written (P.told peers.new)) }
    ensures cause { IsErrOf result DriveFault.PeerFault → Rose (P.faults peers.old) (P.faults peers.new) }
    ensures no_write { IsErrOf result DriveFault.WriteFault → ⊥ }
    ensures no_memory { IsErrOf result DriveFault.Memory → ⊥ }
    ensures no_fault { result ≢ Err DriveFault.PeerFault → P.faults peers.new ≡ P.faults peers.old }
{
    send(peers, peer, frame)?;
    let (size, rest) = reply.as_slice().split_at(2);
    receive(peers, step, peer, reply, &[], size)?;
    receive(peers, step, peer, reply, size, rest)
}
