// What the program says of its peers on standard error. Nothing is said where that fails.
use crate::status::Status;
use edge_io::{ChildPeers, Host, PeerFault, Role};
use std::alloc::AllocError;

// Says which peer failed, whose reply differed, and what each had still to say.
pub(crate) fn tell_peers<H: Host + Drop>(rt: &HostRuntime, status: Status, peers: &ChildPeers<H>) {
    if let Some((role, fault)) = peers.failed {
        tell_fault(rt, role, fault);
    }
    if let (Status::Differs, Some(role)) = (status, peers.heard) {
        tell(rt, role, "its reply differs");
    }
    for (role, octets) in &peers.rests {
        tell_rest(rt, *role, octets);
    }
}

// Says which peer failed, and how.
fn tell_fault(rt: &HostRuntime, role: Role, fault: PeerFault) {
    let text = match fault {
        PeerFault::NotStarted => "its program did not start",
        PeerFault::NoPort => "its program said no port in its first line, within 10 seconds",
        PeerFault::NotReached => "nothing took a connection at the port that its program said",
        PeerFault::NotSent => "it took no frame: it closed the connection, or 10 seconds went by",
        PeerFault::NoReply =>
            "it gave no whole reply: it closed the connection, or 10 seconds went by",
    };
    tell(rt, role, text);
}

// Says what a peer had still to say.
fn tell_rest(rt: &HostRuntime, role: Role, octets: &[u8]) {
    if let Ok(text) = rest_text(rt, octets) {
        tell(rt, role, text.as_str());
    }
}

fn tell(rt: &HostRuntime, role: Role, text: &str) {
    let _ = match role {
        Role::Phone => eprintln!(rt; "lte_sec: phone: {text}"),
        Role::Station(number) => eprintln!(rt; "lte_sec: station {number}: {text}"),
        Role::Core => eprintln!(rt; "lte_sec: core: {text}"),
    };
}

// The text for it, in hex.
fn rest_text(rt: &HostRuntime, octets: &[u8]) -> Result<String, AllocError> {
    let octets = hex::encode(rt.alloc(), octets)?;
    format!(in rt.alloc(); "it had still to say {octets}")
}
