/// What failed at a peer.
#[derive(Clone, Copy, Debug, PartialEq, Eq)]
pub enum PeerFault {
    /// It has no program, or its program did not start.
    NotStarted,
    /// It said no port in its first line, or none in time.
    NoPort,
    /// Nothing took a connection at its port.
    NotReached,
    /// It did not take what it was sent.
    NotSent,
    /// It closed its connection before its reply was whole, or gave the next octets not in time.
    NoReply,
}
