ghost use Rattle.std.specs.Prelude.{◌≡◌, ◌≢◌, ◌≤◌, ◌↔◌, ◌⊎◌, IsTrue, length, take, Ok, IfOk, IfErr, IsSomeAnd, OnOk, OnErr, None};
ghost use Rattle.std.specs.IoError.{error_kind};
ghost use Rattle.std.specs.Io.KnownBytes.{Appends, Consumes};
ghost use Rattle.growth.specs.Growth.{WasRefused};
ghost use Rattle.edge_io.specs.Cause.{OneMore};
ghost use Rattle.edge_io.specs.Opening.{loopback};
ghost use Rattle.edge_io.specs.Serving.{IsCut, IsEnded, IsFilled, IsSent, IsServed, LastCallFails, LeavesSaid, NoMemory, NotFound, NotServed, Says, WantsMemory, start_of};

use crate::failed::Failed;
use crate::host::Host;
use crate::network::Network;
use crate::peer_fault::PeerFault;
use crate::peers::Role;
use crate::port_line::on_loopback;
use crate::port_said::port_said;
use crate::programs::{Program, command_of};
use crate::reader::Reader;
use crate::reader_source::read_once;
use crate::writer::Writer;
use crate::writer_sink::write_once;
use std::alloc::Global;
use std::io::{Error, ErrorKind};

/// A program that serves a role, and the connection to it.
#[derive(Drop)]
pub struct ServedChild<H: Host> {
    /// Its role.
    pub role: Role,
    /// The program.
    pub process: H::Process,
    /// What it says on its standard output.
    pub said: H::Said,
    /// The connection, until it is stopped.
    pub connection: Option<H::Stream>,
}

/// Why a program is not served.
#[derive(Drop)]
pub(crate) enum StartError {
    Memory,
    Peer(PeerFault),
}

impl<H: Host> ServedChild<H> {
    /// Starts this program in this role, reads the line with its port and connects to it. A program
    /// that was started and is not reached is ended, also where the connection wants memory.
    pub(crate) fn start(
        host: &mut H,
        alloc: Global,
        program: &Program,
        role: Role,
    ) -> Result<ServedChild<H>, StartError>
        ensures role { IfOk result (λ child. child.role ≡ role) }
        ensures served { IfOk result (λ child. IsSomeAnd child.connection
            (IsServed (start_of (H.starts host.old) program.now role) H.Said.remaining (H.connects host.new) child.process child.said)) }
        ensures one { OnOk result (OneMore (H.programs_started host.old) (H.programs_started host.new)) }
        ensures failed { IfErr result (λ e. (fault : PeerFault) → e ≡ StartError.Peer fault →
            NotServed (start_of (H.starts host.old) program.now role) H.kills H.waits H.Said.answers H.Said.remaining (H.connects host.new)
            (H.programs_started host.old) (H.programs_started host.new) fault) }
        ensures memory { IfErr result (λ e. e ≡ StartError.Memory →
            NoMemory (start_of (H.starts host.old) program.now role) H.kills H.waits H.Said.remaining (H.connects host.new)
            (H.programs_started host.old) (H.programs_started host.new)) }
        ensures refused { IfErr result (λ e. e ≡ StartError.Memory → WasRefused) }
    {
        let Ok(command) = command_of(alloc, program, role) else {
            return Err(StartError::Memory);
        };
        let (mut process, mut said) = match host.start(command) {
            Ok(started) => started,
            Err(e) => return Err(error_of(e, PeerFault::NotStarted)),
        };
        let connection = connected(host, &mut process, &mut said)?;
        Ok(ServedChild {
            role,
            process,
            said,
            connection: Some(connection),
        })
    }

    /// Sends all these octets. `Failed` where the connection is closed, or a write failed or took nothing.
    pub(crate) fn send(&mut self, octets: &[u8]) -> Result<(), Failed>
        ensures sent { OnOk result (IsSent H.Stream.contents octets.now self.old.connection self.new.connection) }
        ensures failed { OnErr result (IsCut H.Stream.Writer.answers self.old.connection self.new.connection) }
        ensures role { self.new.role ≡ self.old.role }
        ensures process { self.new.process ≡ self.old.process }
    {
        match &mut self.connection {
            Some(connection) => send_all(connection, octets),
            None => Err(Failed),
        }
    }

    /// Fills the buffer with the next octets. `Failed` where the connection is closed, or ends before that, or a
    /// read failed.
    pub(crate) fn receive(&mut self, buf: &mut [u8]) -> Result<(), Failed>
        ensures filled { OnOk result (IsFilled H.Stream.remaining buf.new self.old.connection self.new.connection) }
        ensures failed { OnErr result (IsCut H.Stream.Reader.answers self.old.connection self.new.connection) }
        ensures role { self.new.role ≡ self.old.role }
        ensures process { self.new.process ≡ self.old.process }
    {
        match &mut self.connection {
            Some(connection) => fill(connection, buf),
            None => Err(Failed),
        }
    }

    /// Closes the connection, ends the program and waits until it has ended. What it had still to say is put
    /// into `rest`, as far as that has room and it says it in time; the answer is how many octets that is.
    pub(crate) fn stop(&mut self, rest: &mut [u8]) -> usize
        ensures closed { self.new.connection ≡ None }
        ensures ended { IsEnded H.kills H.waits self.old.process self.new.process }
        ensures role { self.new.role ≡ self.old.role }
        ensures count { result ≤ length rest.old }
        ensures said { LeavesSaid H.finishes H.Stream.Reader.answers H.Stream.remaining (length rest.old) self.old.connection (take result rest.new) }
    {
        let count = match self.connection.take() {
            Some(mut connection) => {
                H::finish(&mut connection);
                still_said(&mut connection, rest)
            }
            None => 0,
        };
        end::<H>(&mut self.process);
        count
    }
}

// A connection to a program that was started. It is ended where it is not reached, or the connection wants memory.
fn connected<H: Host>(
    host: &H,
    process: &mut H::Process,
    said: &mut H::Said,
) -> Result<H::Stream, StartError>
    ensures process { OnOk result (process.new ≡ process.old) }
    ensures ended { OnErr result (IsEnded H.kills H.waits process.old process.new) }
    ensures reached { IfOk result (λ connection.
        Says H.Said.remaining said.old said.new (λ number. H.connects host.now loopback number (Ok connection))) }
    ensures failed { IfErr result (λ e. (fault : PeerFault) → e ≡ StartError.Peer fault →
        NotFound H.Said.answers H.Said.remaining (H.connects host.now) said.old said.new fault) }
    ensures memory { IfErr result (λ e. e ≡ StartError.Memory →
        Says H.Said.remaining said.old said.new (λ number. WantsMemory (H.connects host.now loopback number))) }
    ensures refused { IfErr result (λ e. e ≡ StartError.Memory → WasRefused) }
{
    match reached(host, said) {
        Ok(stream) => Ok(stream),
        Err(e) => {
            end::<H>(process);
            Err(e)
        }
    }
}

// A connection to the port that a program says.
fn reached<H: Host>(host: &H, said: &mut H::Said) -> Result<H::Stream, StartError>
    ensures reached { IfOk result (λ connection.
        Says H.Said.remaining said.old said.new (λ number. H.connects host.now loopback number (Ok connection))) }
    ensures failed { IfErr result (λ e. (fault : PeerFault) → e ≡ StartError.Peer fault →
        NotFound H.Said.answers H.Said.remaining (H.connects host.now) said.old said.new fault) }
    ensures memory { IfErr result (λ e. e ≡ StartError.Memory →
        Says H.Said.remaining said.old said.new (λ number. WantsMemory (H.connects host.now loopback number))) }
    ensures refused { IfErr result (λ e. e ≡ StartError.Memory → WasRefused) }
{
    let number = match port_said(said) {
        Ok(number) => number,
        Err(_) => return Err(StartError::Peer(PeerFault::NoPort)),
    };
    match host.connect_to(on_loopback(number)) {
        Ok(connection) => Ok(connection),
        Err(e) => Err(error_of(e, PeerFault::NotReached)),
    }
}

// The answer at an error of std: want of memory is no fault of the peer.
fn error_of(e: Error, fault: PeerFault) -> StartError
    ensures fault { (other : PeerFault) → result ≡ StartError.Peer other → other ≡ fault }
    ensures itself { (other : PeerFault) → result ≡ StartError.Peer other → error_kind e ≢ ErrorKind.OutOfMemory }
    ensures memory { result ≡ StartError.Memory → error_kind e ≡ ErrorKind.OutOfMemory }
{
    if wants_memory(&e) {
        StartError::Memory
    } else {
        StartError::Peer(fault)
    }
}

// Whether a call failed for want of memory.
fn wants_memory(e: &Error) -> bool
    ensures { IsTrue result ↔ (error_kind e.now ≡ ErrorKind.OutOfMemory) }
{
    e.kind() == ErrorKind::OutOfMemory
}

// Ends a program, and waits until it has ended.
fn end<H: Host>(process: &mut H::Process)
    ensures { IsEnded H.kills H.waits process.old process.new }
{
    H::kill(process);
    H::wait(process);
}

// Writes all these octets.
fn send_all<W: Writer>(stream: &mut W, octets: &[u8]) -> Result<(), Failed>
    ensures sent { OnOk result (Appends (W.contents stream.old) (W.contents stream.new) octets.now) }
    ensures failed { OnErr result (LastCallFails W.answers stream.new) }
{
    let mut sent = 0;
    'pieces: while sent < octets.len() {
        let count = write_once(stream, &octets[sent..])?;
        if count == 0 {
            return Err(Failed);
        }
        sent += count;
    }
    Ok(())
}

// Fills the buffer.
fn fill<R: Reader>(stream: &mut R, buf: &mut [u8]) -> Result<(), Failed>
    ensures filled { OnOk result (Consumes (R.remaining stream.old) (R.remaining stream.new) buf.new) }
    ensures failed { OnErr result (LastCallFails R.answers stream.new) }
{
    let mut filled = 0;
    'pieces: while filled < buf.len() {
        let count = read_once(stream, &mut buf[filled..])?;
        if count == 0 {
            return Err(Failed);
        }
        filled += count;
    }
    Ok(())
}

// Reads until the end, a read that fails, or a full buffer, and answers how many octets came.
fn still_said<R: Reader>(stream: &mut R, buf: &mut [u8]) -> usize
    ensures count { result ≤ length buf.old }
    ensures said { Consumes (R.remaining stream.old) (R.remaining stream.new) (take result buf.new) }
    ensures whole { (result ≡ length buf.old) ⊎ LastCallFails R.answers stream.new }
{
    let mut count = 0;
    'pieces: while count < buf.len() {
        match read_once(stream, &mut buf[count..]) {
            Ok(more) => {
                if more == 0 {
                    return count;
                }
                count += more;
            }
            Err(_) => return count,
        }
    }
    count
}
