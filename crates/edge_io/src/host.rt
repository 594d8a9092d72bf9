ghost use Rattle.std.specs.Prelude.{◌≡◌, ℕ, Result, List, OnErr, OnOk};
ghost use Rattle.std.specs.Process.{command_program, command_args};
ghost use Rattle.std.specs.declared.io.Error.{Error};
ghost use Rattle.edge_io.specs.Cause.{MemoryHasCause, OneMore};
ghost use Rattle.edge_io.specs.Told.{Told};

use crate::edge::Edge;
use crate::network::{Network, PATIENCE};
use crate::reader::Reader;
use std::io;
use std::net::{Net, OpenStream, Shutdown, SocketAddrV4};
use std::os::fd::OwnedFd;
use std::os::unix::net::UnixStream;
use std::process::{Child, Command, Processes, Stdio};
use std::time::Duration;

/// What starts programs and ends them, and counts those that it started.
pub trait Host: Network {
    /// A program that was started.
    type Process: Drop;

    /// What a program says on its standard output.
    type Said: Reader + Drop;

    // What a start may answer, of the octets of a path and of words; and what a kill and a wait do to a
    // program.
    ghost starts: { Self → List ℕ → List (List ℕ) → Result (Self.Process × Self.Said) Error → Type 0 };

    ghost kills: { Self.Process → Self.Process → Type 0 };

    ghost waits: { Self.Process → Self.Process → Type 0 };

    // What it does to a connection to say that nothing more comes.
    ghost finishes: { Self.Stream → Self.Stream → Type 0 };

    // How many programs it has started.
    ghost programs_started: { Self → ℕ };

    /// Starts a program. Its input is empty, and what it says is read here.
    fn start(&mut self, command: Command) -> io::Result<(Self::Process, Self::Said)>
        ensures answer { starts self.old (command_program command) (command_args command) result }
        ensures one { OnOk result (OneMore (programs_started self.old) (programs_started self.new)) }
        ensures none { OnErr result (programs_started self.new ≡ programs_started self.old) }
        ensures memory { MemoryHasCause result };

    /// Kills a program. One that has ended is left as it is.
    fn kill(process: &mut Self::Process)
        ensures { kills process.old process.new };

    /// Waits until a program has ended.
    fn wait(process: &mut Self::Process)
        ensures { waits process.old process.new };

    /// Tells the other side of a connection that nothing more comes, and waits only a second for what it
    /// has still to say.
    fn finish(stream: &mut Self::Stream)
        ensures { finishes stream.old stream.new };
}

/// A host of std, and how many programs it has started: at most 2^64 - 1 are counted.
#[derive(Drop)]
pub struct CountingHost<H> {
    host: H,
    started: u64,
}

impl<H> CountingHost<H> {
    /// This host, which has started no program.
    pub fn new(host: H) -> CountingHost<H>
        ensures { result ≡ record { host = host; started = 0 } }
    {
        CountingHost { host, started: 0 }
    }
}

// The network is that of the host.
impl<H: Net> Network for CountingHost<H> {
    type Listener = H::Listener;

    type Stream = H::Stream;

    ghost binds = { λ h. ⟦<H as Network>⟧.binds h.host };

    ghost connects = { λ h. ⟦<H as Network>⟧.connects h.host };

    ghost has_port = { ⟦<H as Network>⟧.has_port };

    ghost accepts = { ⟦<H as Network>⟧.accepts };

    fn listen_at(&self, address: SocketAddrV4) -> io::Result<H::Listener> {
        self.host.listen_at(address)
    }

    fn connect_to(&self, address: SocketAddrV4) -> io::Result<H::Stream> {
        self.host.connect_to(address)
    }

    fn port_of(listener: &H::Listener) -> io::Result<u16> {
        <H as Network>::port_of(listener)
    }

    fn accept_at<K: Edge>(listener: &H::Listener, said: &K) -> io::Result<H::Stream> {
        <H as Network>::accept_at(listener, said)
    }
}

// Of which of its calls fail std says nothing. What a program says comes over a pair of sockets and not
// by a pipe, since a socket is read with a time at which the read is given up.
impl<H: Net + Processes> Host for CountingHost<H> {
    ghost use Rattle.std.specs.Prelude.{⊤};

    type Process = Child<H::Started>;

    type Said = UnixStream;

    ghost starts = { λ _ _ _ _. ⊤ };

    ghost kills = { λ _ _. ⊤ };

    ghost waits = { λ _ _. ⊤ };

    ghost finishes = { λ _ _. ⊤ };

    ghost programs_started = { λ h. h.started };

    fn start(&mut self, mut command: Command) -> io::Result<(Child<H::Started>, UnixStream)> {
        match std_program(&self.host, &mut command) {
            Ok(program) => {
                self.started = self.started.saturating_add(1);
                Ok(program)
            }
            Err(e) => Err(e),
        }
    }

    fn kill(process: &mut Child<H::Started>) {
        let _ = process.kill();
    }

    fn wait(process: &mut Child<H::Started>) {
        let _ = process.wait();
    }

    fn finish(stream: &mut H::Stream) {
        let _ = stream.shutdown(Shutdown::Write);
        let _ = stream.set_read_timeout(Some(Duration::from_secs(1)));
    }
}

// A program of std that was started, and what it says.
fn std_program<H: Net + Processes>(
    host: &H,
    command: &mut Command,
) -> io::Result<(Child<H::Started>, UnixStream)> {
    let (ours, theirs) = host.unix_pair()?;
    ours.set_read_timeout(Some(Duration::from_secs(PATIENCE)))?;
    command.stdin(Stdio::null());
    command.stdout(OwnedFd::from(theirs));
    Ok((command.spawn(host)?, ours))
}
