ghost use Rattle.std.specs.Prelude.{◌≡◌, ◌++◌, ◌≤◌, ◌<◌, ◌∷◌, ◌↔◌, ◌⊎◌, true, Some, [], map, length, take, drop, IfOk, OnOk, OnErr, IsErr, IsErrOf, IfSome, vec_capacity};
ghost use Rattle.std.specs.Option.{option_map};
ghost use Rattle.edge_io.specs.Cause.{Rose, HasCause};
ghost use Rattle.edge_io.specs.Script.{script_of, FailsNext, after_call};
ghost use Rattle.edge_io.specs.Peers.{IdleFrom, IsRunning, SendFailed, ReceiveFailed, change, new_peer, none_started, started, sent_to, taken_from, stopped_at, failed_at, sent_of, to_give_of, IsPastRoom};

use crate::failed::Failed;
use crate::faults::Faults;
use crate::mem_peer::MemPeer;
use crate::peers::{PeerCall, Peers, Role, StartFault};
use crate::scripted::Scripted;
use std::alloc::{AllocError, Global};

/// Peers over memory. Peer k gives the octets of reply k and keeps the octets that it is sent, up
/// to its room. The calls with the numbers in `failing` fail, counted from 0 without the stops, and
/// so does a start past the last peer, a send past the room and a receive past the reply's end.
#[derive(Drop)]
pub struct MemPeers {
    peers: Vec<MemPeer>,
    roles: Vec<Role>,
    failed_last: Option<PeerCall>,
    faults: Faults,
    ghost few: { length peers.items ≤ 256 },
    ghost within: { length roles.items ≤ length peers.items },
    ghost reserved: { length peers.items ≤ vec_capacity roles },
    ghost idle: { IdleFrom (length roles.items) peers.items },
}

impl MemPeers {
    /// Peers that are not started, as many as replies, at most 256. The only error is want of memory.
    pub fn new(
        alloc: Global,
        replies: Vec<Vec<u8>>,
        room: usize,
        failing: Vec<u64>,
    ) -> Result<MemPeers, AllocError>
        requires { length replies.items ≤ 256 }
        ensures faults { IfOk result (λ peers. ⟦<MemPeers as Peers>⟧.faults peers ≡ 0) }
        ensures calls { IfOk result (λ peers.
            ⟦<MemPeers as Scripted>⟧.peer_calls peers ≡ script_of failing.items) }
        ensures told { IfOk result (λ peers. ⟦<MemPeers as Peers>⟧.told peers
            ≡ Some (none_started room (map (λ reply. reply.items) replies.items))) }
    {
        let roles = Vec::with_capacity(alloc, replies.len())?;
        let peers = peers_of(alloc, replies, room)?;
        Ok(MemPeers {
            peers,
            roles,
            failed_last: None,
            faults: Faults::new(failing),
        })
    }

    /// The octets that a peer was sent.
    pub fn sent(&self, peer: u8) -> &[u8]
        requires { IfSome (⟦<MemPeers as Peers>⟧.told self.now) (λ t. peer < length t.peers) }
        ensures { IfSome (⟦<MemPeers as Peers>⟧.told self.now) (λ t.
            result.now ≡ sent_of peer t.peers) }
    {
        self.peers[peer as usize].sent()
    }
}

fn peers_of(alloc: Global, replies: Vec<Vec<u8>>, room: usize) -> Result<Vec<MemPeer>, AllocError>
    ensures { IfOk result (λ peers.
        peers.items ≡ map (new_peer room) (map (λ reply. reply.items) replies.items)) }
{
    let mut peers = Vec::with_capacity(alloc, replies.len())?;
    for reply in replies {
        peers.push(MemPeer::new(alloc, reply, room)?)?;
    }
    Ok(peers)
}

fn send_at(peers: &mut Vec<MemPeer>, place: usize, octets: &[u8]) -> Result<(), Failed>
    requires { place < length peers.old.items }
    ensures len { length peers.new.items ≡ length peers.old.items }
    ensures fails { IsErr result ↔ IsPastRoom place octets.now peers.old.items }
    ensures ok { OnOk result (peers.new.items
        ≡ change place (λ p. record p { sent = p.sent ++ octets.now }) peers.old.items) }
    ensures err { OnErr result (peers.new.items ≡ peers.old.items) }
{
    peers[place].send(octets)?;
    Ok(())
}

fn receive_at(peers: &mut Vec<MemPeer>, place: usize, buf: &mut [u8]) -> Result<(), Failed>
    requires { place < length peers.old.items }
    ensures len { length peers.new.items ≡ length peers.old.items }
    ensures fails { IsErr result → length (to_give_of place peers.old.items) < length buf.old }
    ensures full { OnOk result (take (length buf.old) (to_give_of place peers.old.items) ≡ buf.new) }
    ensures ok { OnOk result (peers.new.items
        ≡ change place (λ p. record p { to_give = drop (length buf.old) p.to_give }) peers.old.items) }
    ensures err { OnErr result (peers.new.items ≡ peers.old.items) }
{
    peers[place].receive(buf)?;
    Ok(())
}

fn stop_at(peers: &mut Vec<MemPeer>, place: usize)
    requires { place < length peers.old.items }
    ensures len { length peers.new.items ≡ length peers.old.items }
    ensures stopped { peers.new.items
        ≡ change place (λ p. record p { stopped = true }) peers.old.items }
{
    peers[place].stop();
}

impl Scripted for MemPeers {
    ghost peer_calls = { λ p. record { failing = p.faults.failing.items; next = p.faults.calls } };
}

impl Peers for MemPeers {
    ghost faults = { λ p. p.faults.count };

    ghost told = { λ p. Some (record {
      roles = p.roles.items;
      peers = p.peers.items;
      failed_last = p.failed_last;
    }) };

    /// It never answers want of memory.
    fn start(&mut self, role: Role) -> Result<u8, StartFault>
        ensures place { IfOk result (λ place.
            IfSome (⟦<MemPeers as Peers>⟧.told self.old) (λ t. place ≡ length t.roles)) }
        ensures told { ⟦<MemPeers as Peers>⟧.told self.new
            ≡ option_map (started role result) (⟦<MemPeers as Peers>⟧.told self.old) }
        ensures memory { IsErrOf result StartFault.Memory → ⊥ }
        ensures refused { IsErrOf result StartFault.Memory → ⊥ }
        ensures cause { IsErrOf result StartFault.Failed →
            Rose (⟦<MemPeers as Peers>⟧.faults self.old) (⟦<MemPeers as Peers>⟧.faults self.new) }
        ensures no_fault { OnOk result (⟦<MemPeers as Peers>⟧.faults self.new ≡ ⟦<MemPeers as Peers>⟧.faults self.old) }
        ensures count { ⟦<MemPeers as Peers>⟧.faults self.old ≤ ⟦<MemPeers as Peers>⟧.faults self.new }

        // Which starts fail.
        ensures listed { FailsNext (⟦<MemPeers as Scripted>⟧.peer_calls self.old) →
            result ≡ Err StartFault.Failed }
        ensures fails { IsErr result → FailsNext (⟦<MemPeers as Scripted>⟧.peer_calls self.old)
            ⊎ IfSome (⟦<MemPeers as Peers>⟧.told self.old) (λ t. length t.peers ≤ length t.roles) }
        ensures call { ⟦<MemPeers as Scripted>⟧.peer_calls self.new
            ≡ after_call (⟦<MemPeers as Scripted>⟧.peer_calls self.old) }
    {
        if let Err(_) = self.faults.next_call() {
            self.failed_last = Some(PeerCall::Start(role));
            return Err(StartFault::Failed);
        }
        let place = self.roles.len();
        if place >= self.peers.len() {
            self.faults.fault();
            self.failed_last = Some(PeerCall::Start(role));
            return Err(StartFault::Failed);
        }
        self.roles.push(role).unwrap();
        Ok(place as u8)
    }

    /// It fails where its number is listed, and where the peer has no room for all octets.
    fn send(&mut self, peer: u8, octets: &[u8]) -> Result<(), Failed>
        requires { IfSome (⟦<MemPeers as Peers>⟧.told self.old) (IsRunning peer) }
        ensures all { OnOk result (⟦<MemPeers as Peers>⟧.told self.new
            ≡ option_map (sent_to peer octets.now) (⟦<MemPeers as Peers>⟧.told self.old)) }
        ensures prefix { OnErr result (SendFailed peer octets.now
            (⟦<MemPeers as Peers>⟧.told self.old) (⟦<MemPeers as Peers>⟧.told self.new)) }
        ensures cause { HasCause (⟦<MemPeers as Peers>⟧.faults self.old)
            (⟦<MemPeers as Peers>⟧.faults self.new) result }
        ensures no_fault { OnOk result (⟦<MemPeers as Peers>⟧.faults self.new ≡ ⟦<MemPeers as Peers>⟧.faults self.old) }
        ensures count { ⟦<MemPeers as Peers>⟧.faults self.old ≤ ⟦<MemPeers as Peers>⟧.faults self.new }

        // Which sends fail. These send nothing.
        ensures listed { FailsNext (⟦<MemPeers as Scripted>⟧.peer_calls self.old) → IsErr result }
        ensures past { IfSome (⟦<MemPeers as Peers>⟧.told self.old) (λ t. IsPastRoom peer octets.now t.peers) →
            IsErr result }
        ensures fails { IsErr result → FailsNext (⟦<MemPeers as Scripted>⟧.peer_calls self.old)
            ⊎ IfSome (⟦<MemPeers as Peers>⟧.told self.old) (λ t. IsPastRoom peer octets.now t.peers) }
        ensures nothing { OnErr result (⟦<MemPeers as Peers>⟧.told self.new
            ≡ option_map (failed_at (PeerCall.Send peer (length octets.now))) (⟦<MemPeers as Peers>⟧.told self.old)) }
        ensures call { ⟦<MemPeers as Scripted>⟧.peer_calls self.new
            ≡ after_call (⟦<MemPeers as Scripted>⟧.peer_calls self.old) }
    {
        let call = PeerCall::Send(peer, octets.len());
        if let Err(failed) = self.faults.next_call() {
            self.failed_last = Some(call);
            return Err(failed);
        }
        match send_at(&mut self.peers, peer as usize, octets) {
            Ok(()) => Ok(()),
            Err(_) => {
                self.failed_last = Some(call);
                Err(self.faults.fault())
            }
        }
    }

    /// It fails where its number is listed, and where the reply has fewer octets left.
    fn receive(&mut self, peer: u8, buf: &mut [u8]) -> Result<(), Failed>
        requires { IfSome (⟦<MemPeers as Peers>⟧.told self.old) (IsRunning peer) }
        ensures full { OnOk result (IfSome (⟦<MemPeers as Peers>⟧.told self.old) (λ t.
            take (length buf.old) (to_give_of peer t.peers) ≡ buf.new)) }
        ensures taken { OnOk result (⟦<MemPeers as Peers>⟧.told self.new
            ≡ option_map (taken_from peer (length buf.old)) (⟦<MemPeers as Peers>⟧.told self.old)) }
        ensures prefix { OnErr result (ReceiveFailed peer (length buf.old)
            (⟦<MemPeers as Peers>⟧.told self.old) (⟦<MemPeers as Peers>⟧.told self.new)) }
        ensures cause { HasCause (⟦<MemPeers as Peers>⟧.faults self.old)
            (⟦<MemPeers as Peers>⟧.faults self.new) result }
        ensures no_fault { OnOk result (⟦<MemPeers as Peers>⟧.faults self.new ≡ ⟦<MemPeers as Peers>⟧.faults self.old) }
        ensures count { ⟦<MemPeers as Peers>⟧.faults self.old ≤ ⟦<MemPeers as Peers>⟧.faults self.new }

        // Which receives fail. These take nothing.
        ensures listed { FailsNext (⟦<MemPeers as Scripted>⟧.peer_calls self.old) → IsErr result }
        ensures fails { IsErr result → FailsNext (⟦<MemPeers as Scripted>⟧.peer_calls self.old)
            ⊎ IfSome (⟦<MemPeers as Peers>⟧.told self.old) (λ t.
            length (to_give_of peer t.peers) < length buf.old) }
        ensures nothing { OnErr result (⟦<MemPeers as Peers>⟧.told self.new
            ≡ option_map (failed_at (PeerCall.Receive peer (length buf.old))) (⟦<MemPeers as Peers>⟧.told self.old)) }
        ensures call { ⟦<MemPeers as Scripted>⟧.peer_calls self.new
            ≡ after_call (⟦<MemPeers as Scripted>⟧.peer_calls self.old) }
    {
        let call = PeerCall::Receive(peer, buf.len());
        if let Err(failed) = self.faults.next_call() {
            self.failed_last = Some(call);
            return Err(failed);
        }
        match receive_at(&mut self.peers, peer as usize, buf) {
            Ok(()) => Ok(()),
            Err(_) => {
                self.failed_last = Some(call);
                Err(self.faults.fault())
            }
        }
    }

    /// It has no number.
    fn stop(&mut self, peer: u8)
        requires { IfSome (⟦<MemPeers as Peers>⟧.told self.old) (IsRunning peer) }
        ensures told { ⟦<MemPeers as Peers>⟧.told self.new
            ≡ option_map (stopped_at peer) (⟦<MemPeers as Peers>⟧.told self.old) }
        ensures no_fault { ⟦<MemPeers as Peers>⟧.faults self.new ≡ ⟦<MemPeers as Peers>⟧.faults self.old }
        ensures call { ⟦<MemPeers as Scripted>⟧.peer_calls self.new
            ≡ ⟦<MemPeers as Scripted>⟧.peer_calls self.old }
    {
        stop_at(&mut self.peers, peer as usize);
    }

    ghost use Rattle.std.proofs.Common.{rules};

    ghost within = { Prim.search rules };

    ghost idle = { Prim.search rules };
}
