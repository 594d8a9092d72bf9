ghost use Rattle.std.specs.Prelude.{ℕ, Result, List};
ghost use Rattle.std.specs.Net.Addr.{ipv4_octets};
ghost use Rattle.std.specs.Net.Socket.{v4_ip, v4_port};
ghost use Rattle.std.specs.declared.io.Error.{Error};
ghost use Rattle.edge_io.specs.Cause.{MemoryHasCause};
ghost use Rattle.edge_io.specs.Told.{Told};

use crate::edge::Edge;
use crate::reader::Reader;
use crate::writer::Writer;
use std::io;
use std::net::{Net, OpenListener, OpenStream, SocketAddr, SocketAddrV4, TcpListener, TcpStream};
use std::time::Duration;

// How many seconds a peer may take to say its port, to be reached, to take octets and to give the next ones.
pub(crate) const PATIENCE: u64 = 10;

/// The network that a `LoopbackPort` listens on, and over which peers are reached: each of std.
pub trait Network {
    /// What waits for connections.
    type Listener: Drop;

    /// A connection.
    type Stream: Reader + Writer + Drop;

    // What a call may answer: a bind and a connection, at the octets of an IPv4 address and a port; the
    // port of a listener; the next connection to a listener, by what was told of the sink to which its port was written.
    ghost binds: { Self → List ℕ → ℕ → Result Self.Listener Error → Type 0 };

    ghost connects: { Self → List ℕ → ℕ → Result Self.Stream Error → Type 0 };

    ghost has_port: { Self.Listener → Result ℕ Error → Type 0 };

    ghost accepts: { Self.Listener → Told → Result Self.Stream Error → Type 0 };

    /// A listener at this address. Port 0 is one that the system chooses.
    fn listen_at(&self, address: SocketAddrV4) -> io::Result<Self::Listener>
        ensures { binds self.now (ipv4_octets (v4_ip address)) (v4_port address) result };

    /// A connection to this address.
    fn connect_to(&self, address: SocketAddrV4) -> io::Result<Self::Stream>
        ensures answer { connects self.now (ipv4_octets (v4_ip address)) (v4_port address) result }
        ensures memory { MemoryHasCause result };

    /// The port of a listener.
    fn port_of(listener: &Self::Listener) -> io::Result<u16>
        ensures { has_port listener.now result };

    /// Waits for a connection to a listener, whose port was written to this sink before.
    fn accept_at<K: Edge>(listener: &Self::Listener, said: &K) -> io::Result<Self::Stream>
        ensures { accepts listener.now (K.told said.now) result };
}

// Of which of its calls fail std says nothing. What is written goes out at once (TCP_NODELAY).
impl<N: Net> Network for N {
    ghost use Rattle.std.specs.Prelude.{⊤};

    type Listener = N::Listener;

    type Stream = N::Stream;

    ghost binds = { λ _ _ _ _. ⊤ };

    ghost connects = { λ _ _ _ _. ⊤ };

    ghost has_port = { λ _ _. ⊤ };

    ghost accepts = { λ _ _ _. ⊤ };

    fn listen_at(&self, address: SocketAddrV4) -> io::Result<N::Listener> {
        TcpListener::bind(self, address)
    }

    fn connect_to(&self, address: SocketAddrV4) -> io::Result<N::Stream> {
        patient_stream(self, address)
    }

    fn port_of(listener: &N::Listener) -> io::Result<u16> {
        Ok(listener.local_addr()?.port())
    }

    fn accept_at<K: Edge>(listener: &N::Listener, _said: &K) -> io::Result<N::Stream> {
        let (stream, _) = listener.accept()?;
        stream.set_nodelay(true)?;
        Ok(stream)
    }
}

// A connection of std that is given up after a time, at each read and write too.
fn patient_stream<N: Net>(network: &N, address: SocketAddrV4) -> io::Result<N::Stream> {
    let patience = Duration::from_secs(PATIENCE);
    let stream = TcpStream::connect_timeout(network, &SocketAddr::V4(address), patience)?;
    stream.set_nodelay(true)?;
    stream.set_read_timeout(Some(patience))?;
    stream.set_write_timeout(Some(patience))?;
    Ok(stream)
}
