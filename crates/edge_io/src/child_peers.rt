ghost use Rattle.std.specs.Prelude.{◌≡◌, ◌≢◌, ◌+◌, ◌-◌, ◌^◌, ◌≤◌, ◌<◌, ◌⊎◌, [], min, length, take, IfOk, IfErr, IfSome, IsSomeAnd, IsErrOf, OnOk, OnErr, None, Some, Err};
ghost use Rattle.std.specs.Option.{option_map};
ghost use Rattle.std.specs.List.{slice_get};
ghost use Rattle.growth.specs.Growth.{WasRefused};
ghost use Rattle.edge_io.specs.Cause.{HasCause, OneMore, Rose};
ghost use Rattle.edge_io.specs.Peers.{IsRunning, SendFailed, ReceiveFailed, sent_to, started, stopped_at, taken_from, to_give_of};
ghost use Rattle.edge_io.specs.Serving.{IsCut, IsEnded, IsFilled, IsSent, IsServed, Keeps, KeepsSaid, LeavesSaid, NoMemory, NotServed, OfPeer, OfNoPeer, program_of, start_of};

use crate::failed::Failed;
use crate::host::Host;
use crate::network::Network;
use crate::peer_fault::PeerFault;
use crate::peers::{Peers, Role, StartFault};
use crate::programs::Programs;
use crate::reader::Reader;
use crate::served_child::{ServedChild, StartError};
use std::alloc::Global;

/// How many octets of what a peer has still to say are kept at the most: those of the greatest reply.
const REST: usize = 4098;

/// Peers that are programs started here, each with the words of its role, and reached over TCP on
/// 127.0.0.1 at the port that it says. It counts each error but want of memory, and tells nothing of
/// the peers.
#[derive(Drop)]
pub struct ChildPeers<H: Host + Drop> {
    /// What starts and reaches the programs.
    pub host: H,
    /// The programs.
    pub programs: Programs,
    /// The peers that were started, by their numbers.
    pub peers: Vec<ServedChild<H>>,
    /// What failed last, and at which role.
    pub failed: Option<(Role, PeerFault)>,
    /// The role of the peer that was heard last.
    pub heard: Option<Role>,
    /// What a peer had still to say when it was stopped, by its role: at most 4,098 octets.
    pub rests: Vec<(Role, Vec<u8>)>,
    alloc: Global,
    faults: u64,
}

impl<H: Host + Drop> ChildPeers<H> {
    /// Peers, none started yet. Any program can be named that serves a role by frames.
    pub fn new(host: H, alloc: Global, programs: Programs) -> ChildPeers<H>
        ensures told { ⟦<ChildPeers<H> as Peers>⟧.told result ≡ None }
        ensures faults { ⟦<ChildPeers<H> as Peers>⟧.faults result ≡ 0 }
        ensures host { result.host ≡ host }
        ensures programs { result.programs ≡ programs }
        ensures fresh { (result.peers.items ≡ []) × (result.rests.items ≡ []) × (result.failed ≡ None) × (result.heard ≡ None) }
    {
        ChildPeers {
            host,
            programs,
            peers: Vec::new(alloc),
            failed: None,
            heard: None,
            rests: Vec::new(alloc),
            alloc,
            faults: 0,
        }
    }
}

// A fault at a role is told, and counted.
fn count_fault(
    failed: &mut Option<(Role, PeerFault)>,
    faults: &mut u64,
    role: Role,
    fault: PeerFault,
)
    ensures counts { faults.old ≤ faults.new }
    ensures count { faults.new ≡ min (faults.old + 1) (2 ^ 64 - 1) }
    ensures failed { failed.new ≡ Some (role, fault) }
{
    *failed = Some((role, fault));
    *faults = faults.saturating_add(1);
}

// Keeps what a peer had still to say with its role, as far as there is memory for it.
fn keep_rest(alloc: Global, rests: &mut Vec<(Role, Vec<u8>)>, role: Role, octets: &[u8])
    ensures { Keeps rests.old.items rests.new.items (λ v. v.items) role octets.now }
{
    if octets.is_empty() {
        return;
    }
    if let Ok(octets) = growth::from_slice(alloc, octets) {
        let _ = growth::push(rests, (role, octets));
    }
}

// Starts the next peer. The room for it is made first, so that a program that was started always has its place.
fn start_next<H: Host>(
    host: &mut H,
    alloc: Global,
    programs: &Programs,
    role: Role,
    peers: &mut Vec<ServedChild<H>>,
) -> Result<u8, StartError>
    ensures place { IfOk result (λ place. place ≡ length peers.old.items) }
    ensures others { take (length peers.old.items) peers.new.items ≡ peers.old.items }
    ensures one { OnOk result (length peers.new.items ≡ length peers.old.items + 1) }
    ensures started { OnOk result (OneMore (H.programs_started host.old) (H.programs_started host.new)) }
    ensures kept { OnErr result (peers.new.items ≡ peers.old.items) }
    ensures served { OnOk result (IsSomeAnd (program_of role programs.now) (λ program.
        IsSomeAnd (slice_get peers.new.items (length peers.old.items)) (λ child. (child.role ≡ role) × IsSomeAnd child.connection
        (IsServed (start_of (H.starts host.old) program role) H.Said.remaining (H.connects host.new) child.process child.said)))) }
    ensures no_program { program_of role programs.now ≡ None →
        (result ≡ Err (StartError.Peer PeerFault.NotStarted)) × (H.programs_started host.new ≡ H.programs_started host.old) }
    ensures failed { IfErr result (λ e. (fault : PeerFault) → e ≡ StartError.Peer fault →
        ((256 ≤ length peers.old.items) × (fault ≡ PeerFault.NotStarted) × (H.programs_started host.new ≡ H.programs_started host.old))
        ⊎ IfSome (program_of role programs.now) (λ program. NotServed (start_of (H.starts host.old) program role)
        H.kills H.waits H.Said.answers H.Said.remaining (H.connects host.new)
        (H.programs_started host.old) (H.programs_started host.new) fault)) }
    ensures memory { IfErr result (λ e. e ≡ StartError.Memory → IfSome (program_of role programs.now) (λ program.
        NoMemory (start_of (H.starts host.old) program role) H.kills H.waits H.Said.remaining (H.connects host.new)
        (H.programs_started host.old) (H.programs_started host.new))) }
    ensures refused { IfErr result (λ e. e ≡ StartError.Memory → WasRefused) }
{
    let Some(program) = programs.of(role) else {
        return Err(StartError::Peer(PeerFault::NotStarted));
    };
    let Ok(place) = u8::try_from(peers.len()) else {
        return Err(StartError::Peer(PeerFault::NotStarted));
    };
    let Ok(()) = growth::reserve(peers, 1) else {
        return Err(StartError::Memory);
    };
    let child = ServedChild::start(host, alloc, program, role)?;
    peers.push(child).unwrap();
    Ok(place)
}

// Sends to the peer at a place.
fn send_at<H: Host>(
    peers: &mut Vec<ServedChild<H>>,
    place: usize,
    octets: &[u8],
) -> Result<(), Failed>
    requires { place < length peers.old.items }
    ensures sent { OnOk result (OfPeer place peers.old.items peers.new.items (λ old new.
        (new.role ≡ old.role) × (new.process ≡ old.process) × IsSent H.Stream.contents octets.now old.connection new.connection)) }
    ensures failed { OnErr result (OfPeer place peers.old.items peers.new.items (λ old new.
        (new.role ≡ old.role) × (new.process ≡ old.process) × IsCut H.Stream.Writer.answers old.connection new.connection)) }
{
    peers[place].send(octets)
}

// Receives from the peer at a place.
fn receive_at<H: Host>(
    peers: &mut Vec<ServedChild<H>>,
    place: usize,
    buf: &mut [u8],
) -> Result<(), Failed>
    requires { place < length peers.old.items }
    ensures filled { OnOk result (OfPeer place peers.old.items peers.new.items (λ old new.
        (new.role ≡ old.role) × (new.process ≡ old.process) × IsFilled H.Stream.remaining buf.new old.connection new.connection)) }
    ensures failed { OnErr result (OfPeer place peers.old.items peers.new.items (λ old new.
        (new.role ≡ old.role) × (new.process ≡ old.process) × IsCut H.Stream.Reader.answers old.connection new.connection)) }
{
    peers[place].receive(buf)
}

// Stops the peer at a place, and answers how many octets it had still to say.
fn stop_at<H: Host>(peers: &mut Vec<ServedChild<H>>, place: usize, rest: &mut [u8]) -> usize
    requires { place < length peers.old.items }
    ensures ended { OfPeer place peers.old.items peers.new.items (λ old new.
        (new.role ≡ old.role) × (new.connection ≡ None) × IsEnded H.kills H.waits old.process new.process
        × LeavesSaid H.finishes H.Stream.Reader.answers H.Stream.remaining (length rest.old) old.connection (take result rest.new)) }
    ensures count { result ≤ length rest.old }
{
    peers[place].stop(rest)
}

impl<H: Host + Drop> Peers for ChildPeers<H> {
    ghost use Rattle.std.proofs.Common.{rules};

    ghost faults = { λ p. p.faults };

    ghost told = { λ _. None };

    /// It starts the program of the role, reads the line with its port and connects to it. It fails past 256
    /// peers.
    fn start(&mut self, role: Role) -> Result<u8, StartFault>
        ensures place { IfOk result (λ place.
            IfSome (⟦<ChildPeers<H> as Peers>⟧.told self.old) (λ t. place ≡ length t.roles)) }
        ensures told { ⟦<ChildPeers<H> as Peers>⟧.told self.new
            ≡ option_map (started role result) (⟦<ChildPeers<H> as Peers>⟧.told self.old) }
        ensures memory { IsErrOf result StartFault.Memory →
            ⟦<ChildPeers<H> as Peers>⟧.faults self.new ≡ ⟦<ChildPeers<H> as Peers>⟧.faults self.old }
        ensures refused { IsErrOf result StartFault.Memory → WasRefused }
        ensures cause { IsErrOf result StartFault.Failed →
            Rose (⟦<ChildPeers<H> as Peers>⟧.faults self.old) (⟦<ChildPeers<H> as Peers>⟧.faults self.new) }
        ensures no_fault { OnOk result (⟦<ChildPeers<H> as Peers>⟧.faults self.new ≡ ⟦<ChildPeers<H> as Peers>⟧.faults self.old) }
        ensures count { ⟦<ChildPeers<H> as Peers>⟧.faults self.old ≤ ⟦<ChildPeers<H> as Peers>⟧.faults self.new }

        // The peer is the program of the role, started with the words of the role, and reached on 127.0.0.1 at the port that it said.
        // Its number is its place among those started; it is one peer more, and one program was started.
        ensures number { IfOk result (λ number. number ≡ length self.old.peers.items) }
        ensures served { OnOk result (IsSomeAnd (program_of role self.old.programs) (λ program.
            IsSomeAnd (slice_get self.new.peers.items (length self.old.peers.items)) (λ child. (child.role ≡ role) × IsSomeAnd child.connection
            (IsServed (start_of (H.starts self.old.host) program role) H.Said.remaining (H.connects self.new.host) child.process child.said)))) }
        ensures others { take (length self.old.peers.items) self.new.peers.items ≡ self.old.peers.items }
        ensures one { OnOk result (length self.new.peers.items ≡ length self.old.peers.items + 1) }
        ensures started { OnOk result (OneMore (H.programs_started self.old.host) (H.programs_started self.new.host)) }

        // Why it fails. A program that was started is then ended.
        ensures kept { OnErr result (self.new.peers.items ≡ self.old.peers.items) }
        ensures no_program { program_of role self.old.programs ≡ None → (result ≡ Err StartFault.Failed)
            × (self.new.failed ≡ Some (role, PeerFault.NotStarted)) × (H.programs_started self.new.host ≡ H.programs_started self.old.host) }
        ensures named { IsErrOf result StartFault.Failed → IsSomeAnd self.new.failed (λ failed. failed.0 ≡ role) }
        ensures failed { (fault : PeerFault) → IsErrOf result StartFault.Failed → self.new.failed ≡ Some (role, fault) →
            ((256 ≤ length self.old.peers.items) × (fault ≡ PeerFault.NotStarted) × (H.programs_started self.new.host ≡ H.programs_started self.old.host))
            ⊎ IfSome (program_of role self.old.programs) (λ program. NotServed (start_of (H.starts self.old.host) program role)
            H.kills H.waits H.Said.answers H.Said.remaining (H.connects self.new.host)
            (H.programs_started self.old.host) (H.programs_started self.new.host) fault) }
        ensures no_memory { IsErrOf result StartFault.Memory → IfSome (program_of role self.old.programs) (λ program.
            NoMemory (start_of (H.starts self.old.host) program role) H.kills H.waits H.Said.remaining (H.connects self.new.host)
            (H.programs_started self.old.host) (H.programs_started self.new.host)) }

        // What stays. Only a start that failed is told as a fault.
        ensures unmarked { result ≢ Err StartFault.Failed → self.new.failed ≡ self.old.failed }
        ensures programs { self.new.programs ≡ self.old.programs }
        ensures heard { self.new.heard ≡ self.old.heard }
        ensures rests { self.new.rests ≡ self.old.rests }
    {
        match start_next(
            &mut self.host,
            self.alloc,
            &self.programs,
            role,
            &mut self.peers,
        ) {
            Ok(place) => Ok(place),
            Err(StartError::Memory) => Err(StartFault::Memory),
            Err(StartError::Peer(fault)) => {
                count_fault(&mut self.failed, &mut self.faults, role, fault);
                Err(StartFault::Failed)
            }
        }
    }

    /// It sends them to the program that was started with this number. It fails where no program has it, or the
    /// send to that one fails.
    fn send(&mut self, peer: u8, octets: &[u8]) -> Result<(), Failed>
        requires { IfSome (⟦<ChildPeers<H> as Peers>⟧.told self.old) (IsRunning peer) }
        ensures all { OnOk result (⟦<ChildPeers<H> as Peers>⟧.told self.new
            ≡ option_map (sent_to peer octets.now) (⟦<ChildPeers<H> as Peers>⟧.told self.old)) }
        ensures prefix { OnErr result (SendFailed peer octets.now
            (⟦<ChildPeers<H> as Peers>⟧.told self.old) (⟦<ChildPeers<H> as Peers>⟧.told self.new)) }
        ensures cause { HasCause (⟦<ChildPeers<H> as Peers>⟧.faults self.old) (⟦<ChildPeers<H> as Peers>⟧.faults self.new) result }
        ensures no_fault { OnOk result (⟦<ChildPeers<H> as Peers>⟧.faults self.new ≡ ⟦<ChildPeers<H> as Peers>⟧.faults self.old) }
        ensures count { ⟦<ChildPeers<H> as Peers>⟧.faults self.old ≤ ⟦<ChildPeers<H> as Peers>⟧.faults self.new }

        // Which peer it is, and what was done to it.
        ensures sent { OnOk result (OfPeer peer self.old.peers.items self.new.peers.items (λ old new.
            (new.role ≡ old.role) × (new.process ≡ old.process) × IsSent H.Stream.contents octets.now old.connection new.connection)) }
        ensures failed { OnErr result (OfNoPeer peer self.old.peers.items self.new.peers.items
            ⊎ OfPeer peer self.old.peers.items self.new.peers.items (λ old new.
            (new.role ≡ old.role) × (new.process ≡ old.process) × IsCut H.Stream.Writer.answers old.connection new.connection)) }
        ensures named { OnErr result (IfSome (slice_get self.old.peers.items peer) (λ child.
            self.new.failed ≡ Some (child.role, PeerFault.NotSent))) }

        // What stays. Only a send that failed is told as a fault.
        ensures unmarked { OnOk result (self.new.failed ≡ self.old.failed) }
        ensures host { self.new.host ≡ self.old.host }
        ensures programs { self.new.programs ≡ self.old.programs }
        ensures heard { self.new.heard ≡ self.old.heard }
        ensures rests { self.new.rests ≡ self.old.rests }
    {
        let place = peer as usize;
        if place >= self.peers.len() {
            self.faults = self.faults.saturating_add(1);
            return Err(Failed);
        }
        let role = self.peers[place].role;
        match send_at(&mut self.peers, place, octets) {
            Ok(()) => Ok(()),
            Err(Failed) => {
                count_fault(&mut self.failed, &mut self.faults, role, PeerFault::NotSent);
                Err(Failed)
            }
        }
    }

    /// It waits for the program that was started with this number. It fails where no program has it, or the receipt
    /// from that one fails.
    fn receive(&mut self, peer: u8, buf: &mut [u8]) -> Result<(), Failed>
        requires { IfSome (⟦<ChildPeers<H> as Peers>⟧.told self.old) (IsRunning peer) }
        ensures full { OnOk result (IfSome (⟦<ChildPeers<H> as Peers>⟧.told self.old) (λ t.
            take (length buf.old) (to_give_of peer t.peers) ≡ buf.new)) }
        ensures taken { OnOk result (⟦<ChildPeers<H> as Peers>⟧.told self.new
            ≡ option_map (taken_from peer (length buf.old)) (⟦<ChildPeers<H> as Peers>⟧.told self.old)) }
        ensures prefix { OnErr result (ReceiveFailed peer (length buf.old)
            (⟦<ChildPeers<H> as Peers>⟧.told self.old) (⟦<ChildPeers<H> as Peers>⟧.told self.new)) }
        ensures cause { HasCause (⟦<ChildPeers<H> as Peers>⟧.faults self.old) (⟦<ChildPeers<H> as Peers>⟧.faults self.new) result }
        ensures no_fault { OnOk result (⟦<ChildPeers<H> as Peers>⟧.faults self.new ≡ ⟦<ChildPeers<H> as Peers>⟧.faults self.old) }
        ensures count { ⟦<ChildPeers<H> as Peers>⟧.faults self.old ≤ ⟦<ChildPeers<H> as Peers>⟧.faults self.new }

        // Which peer it is, and what was done to it.
        ensures filled { OnOk result (OfPeer peer self.old.peers.items self.new.peers.items (λ old new.
            (new.role ≡ old.role) × (new.process ≡ old.process) × IsFilled H.Stream.remaining buf.new old.connection new.connection)) }
        ensures failed { OnErr result (OfNoPeer peer self.old.peers.items self.new.peers.items
            ⊎ OfPeer peer self.old.peers.items self.new.peers.items (λ old new.
            (new.role ≡ old.role) × (new.process ≡ old.process) × IsCut H.Stream.Reader.answers old.connection new.connection)) }
        ensures named { OnErr result (IfSome (slice_get self.old.peers.items peer) (λ child.
            self.new.failed ≡ Some (child.role, PeerFault.NoReply))) }
        ensures heard { IfSome (slice_get self.old.peers.items peer) (λ child. self.new.heard ≡ Some child.role) }

        // What stays. Only a receipt that failed is told as a fault.
        ensures unmarked { OnOk result (self.new.failed ≡ self.old.failed) }
        ensures host { self.new.host ≡ self.old.host }
        ensures programs { self.new.programs ≡ self.old.programs }
        ensures rests { self.new.rests ≡ self.old.rests }
    {
        let place = peer as usize;
        if place >= self.peers.len() {
            self.faults = self.faults.saturating_add(1);
            return Err(Failed);
        }
        let role = self.peers[place].role;
        self.heard = Some(role);
        match receive_at(&mut self.peers, place, buf) {
            Ok(()) => Ok(()),
            Err(Failed) => {
                count_fault(&mut self.failed, &mut self.faults, role, PeerFault::NoReply);
                Err(Failed)
            }
        }
    }

    /// It closes the connection, ends the program and waits until it has ended. What the program had still to
    /// say is kept.
    fn stop(&mut self, peer: u8)
        requires { IfSome (⟦<ChildPeers<H> as Peers>⟧.told self.old) (IsRunning peer) }
        ensures told { ⟦<ChildPeers<H> as Peers>⟧.told self.new
            ≡ option_map (stopped_at peer) (⟦<ChildPeers<H> as Peers>⟧.told self.old) }
        ensures no_fault { ⟦<ChildPeers<H> as Peers>⟧.faults self.new ≡ ⟦<ChildPeers<H> as Peers>⟧.faults self.old }

        // Which peer it is, and what was done to it.
        ensures ended { (OfNoPeer peer self.old.peers.items self.new.peers.items × (self.new.rests ≡ self.old.rests))
            ⊎ OfPeer peer self.old.peers.items self.new.peers.items (λ old new. (new.role ≡ old.role) × (new.connection ≡ None)
            × IsEnded H.kills H.waits old.process new.process
            × KeepsSaid H.finishes H.Stream.Reader.answers H.Stream.remaining self.old.rests.items self.new.rests.items
            (λ v. v.items) old.role old.connection) }

        // What stays.
        ensures host { self.new.host ≡ self.old.host }
        ensures programs { self.new.programs ≡ self.old.programs }
        ensures failed { self.new.failed ≡ self.old.failed }
        ensures heard { self.new.heard ≡ self.old.heard }
    {
        let place = peer as usize;
        if place >= self.peers.len() {
            return;
        }
        let role = self.peers[place].role;
        let mut rest = [0u8; REST];
        let count = stop_at(&mut self.peers, place, &mut rest);
        keep_rest(self.alloc, &mut self.rests, role, &rest[..count]);
    }

    ghost within = { Prim.search rules };

    ghost idle = { Prim.search rules };
}
