use crate::failed::Failed;

/// What a peer plays.
#[derive(Clone, Copy)]
pub enum Role {
    /// The phone.
    Phone,
    /// The station with this number, 0 to 7.
    Station(u8),
    /// The core.
    Core,
}

/// Why a peer was not started.
#[derive(Clone, Copy, Debug, PartialEq, Eq)]
pub enum StartFault {
    /// Want of memory. It counts as no fault of the peers.
    Memory,
    /// The start failed, and the count of faults rose.
    Failed,
}

/// A call on peers.
#[derive(Clone, Copy)]
pub enum PeerCall {
    /// The start of a role.
    Start(Role),
    /// The send of so many octets to the peer with this number.
    Send(u8, usize),
    /// The receipt of so many octets from the peer with this number.
    Receive(u8, usize),
}

/// Peers that are started, each in a role, sent octets and asked for octets.
///
/// A peer's number is the place of its role among those started, from 0. Each call changes only what is
/// told of its own peer.
pub trait Peers {
    ghost use Rattle.std.specs.Prelude.{◌≡◌, ◌≤◌, ℕ, Option, length, take, IfOk, OnOk, OnErr, IsErrOf, IfSome};
    ghost use Rattle.std.specs.Option.{option_map};
    ghost use Rattle.growth.specs.Growth.{WasRefused};
    ghost use Rattle.edge_io.specs.Cause.{Rose, HasCause};
    ghost use Rattle.edge_io.specs.declared.peers.Role.{Role};
    ghost use Rattle.edge_io.specs.Peers.{PeersTold, IsRunning, IdleFrom, started, sent_to, taken_from, stopped_at, to_give_of, SendFailed, ReceiveFailed};

    ghost faults: { Self → ℕ };

    ghost told: { Self → Option PeersTold };

    /// Starts a peer in this role and answers its number. `Failed` where it did not start, `Memory` where
    /// memory was refused.
    fn start(&mut self, role: Role) -> Result<u8, StartFault>
        ensures place { IfOk result (λ place.
            IfSome (told self.old) (λ t. place ≡ length t.roles)) }
        ensures told { told self.new ≡ option_map (started role result) (told self.old) }
        ensures memory { IsErrOf result StartFault.Memory → faults self.new ≡ faults self.old }
        ensures refused { IsErrOf result StartFault.Memory → WasRefused }
        ensures cause { IsErrOf result StartFault.Failed → Rose (faults self.old) (faults self.new) }
        ensures no_fault { OnOk result (faults self.new ≡ faults self.old) }
        ensures count { faults self.old ≤ faults self.new };

    /// Sends all these octets to a peer. Where it fails, a prefix of them was sent.
    fn send(&mut self, peer: u8, octets: &[u8]) -> Result<(), Failed>
        requires { IfSome (told self.old) (IsRunning peer) }
        ensures all { OnOk result
            (told self.new ≡ option_map (sent_to peer octets.now) (told self.old)) }
        ensures prefix { OnErr result
            (SendFailed peer octets.now (told self.old) (told self.new)) }
        ensures cause { HasCause (faults self.old) (faults self.new) result }
        ensures no_fault { OnOk result (faults self.new ≡ faults self.old) }
        ensures count { faults self.old ≤ faults self.new };

    /// Fills the buffer with the next octets of a peer. An early end counts as a fault. Where it
    /// fails, a prefix of what the peer had still to give was taken.
    fn receive(&mut self, peer: u8, buf: &mut [u8]) -> Result<(), Failed>
        requires { IfSome (told self.old) (IsRunning peer) }
        ensures full { OnOk result (IfSome (told self.old) (λ t.
            take (length buf.old) (to_give_of peer t.peers) ≡ buf.new)) }
        ensures taken { OnOk result
            (told self.new ≡ option_map (taken_from peer (length buf.old)) (told self.old)) }
        ensures prefix { OnErr result
            (ReceiveFailed peer (length buf.old) (told self.old) (told self.new)) }
        ensures cause { HasCause (faults self.old) (faults self.new) result }
        ensures no_fault { OnOk result (faults self.new ≡ faults self.old) }
        ensures count { faults self.old ≤ faults self.new };

    /// Stops a peer. It counts no fault.
    fn stop(&mut self, peer: u8)
        requires { IfSome (told self.old) (IsRunning peer) }
        ensures told { told self.new ≡ option_map (stopped_at peer) (told self.old) }
        ensures no_fault { faults self.new ≡ faults self.old };

    ghost within: { (peers : Self) → IfSome (told peers) (λ t. length t.roles ≤ length t.peers) };

    ghost idle: { (peers : Self) → IfSome (told peers) (λ t. IdleFrom (length t.roles) t.peers) };
}
