ghost use Rattle.std.specs.Prelude.{◌≡◌, ◌+◌, ◌-◌, ◌^◌, ◌≤◌, ◌<◌, ◌⊎◌, min, IsTrue, length, IfOk, OnOk, OnErr, IfSome, Ok, None, is_some, false, true};
ghost use Rattle.std.specs.Io.KnownBytes.{ReadConsumes, WriteAppends};
ghost use Rattle.edge_io.specs.Told.{HasEnded, connection_told};
ghost use Rattle.edge_io.specs.Cause.{HasCause, NoCountFell, NoFault};
ghost use Rattle.edge_io.specs.Lines.{with_octets, with_piece};
ghost use Rattle.edge_io.specs.Octets.{Gives, Grows, MetNoEnd, octets_of};
ghost use Rattle.edge_io.specs.Opening.{IsOpened, OpenFails};
ghost use Rattle.edge_io.specs.Tries.{LastAnswers, GivesUp};
ghost use Rattle.edge_io.specs.Used.{UsedAsSink};

use crate::edge::Edge;
use crate::failed::Failed;
use crate::lines::has_octets;
use crate::network::Network;
use crate::port::Port;
use crate::port_line::{on_loopback, port_line};
use crate::reader_source::{MOST, read_once};
use crate::sink::Sink;
use crate::source::Source;
use crate::writer_sink::write_once;
use crate::writing::write_all;

/// A port over one TCP connection on 127.0.0.1. It counts each error of the network. Of the
/// octets it tells no more than whether no piece that it was given was empty. It gives at most 2^62 octets: a read past them fails.
#[derive(Drop)]
pub struct LoopbackPort<N: Network + Drop, K: Sink + Drop> {
    /// The one connection, once it was accepted.
    pub connection: Option<N::Stream>,
    /// Where the number of the port is written.
    pub out: K,
    /// The network.
    pub net: N,
    most: usize,
    ended: bool,
    pieces: bool,
    read_faults: u64,
    write_faults: u64,
    open_faults: u64,
    ghost out_ready: { IsTrue (K.told out).ready },
}

impl<N: Network + Drop, K: Sink + Drop> LoopbackPort<N, K> {
    /// A port that is not open. It will be bound by `net`, and its number written to `out`.
    pub fn new(net: N, out: K) -> LoopbackPort<N, K>
        requires { IsTrue (K.told out).ready }
        ensures told { ⟦<LoopbackPort<N, K> as Edge>⟧.told result
            ≡ connection_told false (2 ^ 62) false true 0 0 0 }
    {
        LoopbackPort {
            connection: None,
            out,
            net,
            most: MOST,
            ended: false,
            pieces: true,
            read_faults: 0,
            write_faults: 0,
            open_faults: 0,
        }
    }
}

impl<N: Network + Drop, K: Sink + Drop> Edge for LoopbackPort<N, K> {
    ghost told = { λ p. connection_told (is_some p.connection) p.most p.ended p.pieces p.read_faults p.write_faults p.open_faults };
}

impl<N: Network + Drop, K: Sink + Drop> Source for LoopbackPort<N, K> {
    ghost use Rattle.std.proofs.Common.{rules};

    /// It hands on what the connection gives.
    fn read(&mut self, buf: &mut [u8]) -> Result<usize, Failed>
        requires { IsTrue (⟦<LoopbackPort<N, K> as Edge>⟧.told self.old).ready }
        ensures ready { IsTrue (⟦<LoopbackPort<N, K> as Edge>⟧.told self.new).ready }
        ensures count { IfOk result (λ n. n ≤ length buf.old) }
        ensures octets { Gives (⟦<LoopbackPort<N, K> as Edge>⟧.told self.old).left
            (⟦<LoopbackPort<N, K> as Edge>⟧.told self.new).left (octets_of result buf.new) }
        ensures end { IfOk result (λ n. n ≡ 0 → 0 < length buf.old →
            HasEnded (⟦<LoopbackPort<N, K> as Edge>⟧.told self.new)) }
        ensures no_end { MetNoEnd result (⟦<LoopbackPort<N, K> as Edge>⟧.told self.old)
            (⟦<LoopbackPort<N, K> as Edge>⟧.told self.new) }
        ensures nothing { length buf.old ≡ 0 → (⟦<LoopbackPort<N, K> as Edge>⟧.told self.new).ended
            ≡ (⟦<LoopbackPort<N, K> as Edge>⟧.told self.old).ended }
        ensures most { (⟦<LoopbackPort<N, K> as Edge>⟧.told self.new).most
            + length (octets_of result buf.new) ≤ (⟦<LoopbackPort<N, K> as Edge>⟧.told self.old).most }
        ensures written { (⟦<LoopbackPort<N, K> as Edge>⟧.told self.new).written
            ≡ (⟦<LoopbackPort<N, K> as Edge>⟧.told self.old).written }
        ensures pieces { (⟦<LoopbackPort<N, K> as Edge>⟧.told self.new).pieces
            ≡ (⟦<LoopbackPort<N, K> as Edge>⟧.told self.old).pieces }
        ensures cause { HasCause (⟦<LoopbackPort<N, K> as Edge>⟧.told self.old).read_faults
            (⟦<LoopbackPort<N, K> as Edge>⟧.told self.new).read_faults result }
        ensures no_fault { OnOk result (NoFault (⟦<LoopbackPort<N, K> as Edge>⟧.told self.old)
            (⟦<LoopbackPort<N, K> as Edge>⟧.told self.new)) }
        ensures counts { NoCountFell (⟦<LoopbackPort<N, K> as Edge>⟧.told self.old)
            (⟦<LoopbackPort<N, K> as Edge>⟧.told self.new) }
        ensures passed { IfSome self.old.connection (λ old. IfSome self.new.connection (λ new.
            ReadConsumes (N.Stream.remaining old) (N.Stream.remaining new) result buf.new)) }

        // What is answered is what the connection answered. A read fails by itself only past 2^62 octets.
        ensures answered { IfOk result (λ n. IfSome self.old.connection (λ old. IfSome self.new.connection (λ new.
            LastAnswers (N.Stream.Reader.answers (min (length buf.old) (⟦<LoopbackPort<N, K> as Edge>⟧.told self.old).most)) (Ok n) old new))) }
        ensures failed { OnErr result (IfSome self.old.connection (λ old. IfSome self.new.connection (λ new.
            GivesUp (N.Stream.Reader.answers (min (length buf.old) (⟦<LoopbackPort<N, K> as Edge>⟧.told self.old).most)) old new))
            ⊎ ((⟦<LoopbackPort<N, K> as Edge>⟧.told self.old).most ≡ 0)) }
    {
        let Some(connection) = &mut self.connection else {
            unreachable!()
        };
        if self.most > 0 {
            let room = buf.len().min(self.most);
            if let Ok(count) = read_once(connection, &mut buf[..room]) {
                self.most -= count;
                if count == 0 && room > 0 {
                    self.ended = true;
                }
                return Ok(count);
            }
        }
        self.read_faults = self.read_faults.saturating_add(1);
        Err(Failed)
    }

    ghost told_within = { Prim.search rules };
}

impl<N: Network + Drop, K: Sink + Drop> Sink for LoopbackPort<N, K> {
    /// It hands on to the connection, which takes what this answers.
    fn write(&mut self, piece: &[u8]) -> Result<usize, Failed>
        requires { IsTrue (⟦<LoopbackPort<N, K> as Edge>⟧.told self.old).ready }
        ensures ready { IsTrue (⟦<LoopbackPort<N, K> as Edge>⟧.told self.new).ready }
        ensures count { IfOk result (λ n. n ≤ length piece.now) }
        ensures some { IfOk result (λ n. 0 < length piece.now → 0 < n) }
        ensures octets { Grows (⟦<LoopbackPort<N, K> as Edge>⟧.told self.old).written
            (⟦<LoopbackPort<N, K> as Edge>⟧.told self.new).written (octets_of result piece.now) }
        ensures lines { (⟦<LoopbackPort<N, K> as Edge>⟧.told self.new).lines
            ≡ with_piece piece.now (⟦<LoopbackPort<N, K> as Edge>⟧.told self.old).lines }
        ensures pieces { (⟦<LoopbackPort<N, K> as Edge>⟧.told self.new).pieces
            ≡ with_octets piece.now (⟦<LoopbackPort<N, K> as Edge>⟧.told self.old).pieces }
        ensures left { (⟦<LoopbackPort<N, K> as Edge>⟧.told self.new).left
            ≡ (⟦<LoopbackPort<N, K> as Edge>⟧.told self.old).left }
        ensures most { (⟦<LoopbackPort<N, K> as Edge>⟧.told self.new).most
            ≡ (⟦<LoopbackPort<N, K> as Edge>⟧.told self.old).most }
        ensures ended { (⟦<LoopbackPort<N, K> as Edge>⟧.told self.new).ended
            ≡ (⟦<LoopbackPort<N, K> as Edge>⟧.told self.old).ended }
        ensures cause { HasCause (⟦<LoopbackPort<N, K> as Edge>⟧.told self.old).write_faults
            (⟦<LoopbackPort<N, K> as Edge>⟧.told self.new).write_faults result }
        ensures no_fault { OnOk result (NoFault (⟦<LoopbackPort<N, K> as Edge>⟧.told self.old)
            (⟦<LoopbackPort<N, K> as Edge>⟧.told self.new)) }
        ensures counts { NoCountFell (⟦<LoopbackPort<N, K> as Edge>⟧.told self.old)
            (⟦<LoopbackPort<N, K> as Edge>⟧.told self.new) }
        ensures passed { IfSome self.old.connection (λ old. IfSome self.new.connection (λ new.
            WriteAppends (N.Stream.contents old) (N.Stream.contents new) result piece.now)) }

        // What is answered is what the connection answered. Only a write that took nothing fails besides.
        ensures answered { IfOk result (λ n. IfSome self.old.connection (λ old. IfSome self.new.connection (λ new.
            LastAnswers (N.Stream.Writer.answers piece.now) (Ok n) old new))) }
        ensures failed { OnErr result (IfSome self.old.connection (λ old. IfSome self.new.connection (λ new.
            GivesUp (N.Stream.Writer.answers piece.now) old new
            ⊎ (LastAnswers (N.Stream.Writer.answers piece.now) (Ok 0) old new
            × (0 < length piece.now))))) }
    {
        let Some(connection) = &mut self.connection else {
            unreachable!()
        };
        self.pieces = self.pieces && has_octets(piece);
        if let Ok(count) = write_once(connection, piece) {
            if count > 0 || piece.is_empty() {
                return Ok(count);
            }
        }
        self.write_faults = self.write_faults.saturating_add(1);
        Err(Failed)
    }
}

impl<N: Network + Drop, K: Sink + Drop> Port for LoopbackPort<N, K> {
    /// It binds a free port on 127.0.0.1, writes its number as one line, and waits for one
    /// connection.
    fn open(&mut self) -> Result<(), Failed>
        requires { (⟦<LoopbackPort<N, K> as Edge>⟧.told self.old).ready ≡ false }
        ensures opened { OnOk result (IsTrue (⟦<LoopbackPort<N, K> as Edge>⟧.told self.new).ready) }
        ensures closed { OnErr result ((⟦<LoopbackPort<N, K> as Edge>⟧.told self.new).ready ≡ false) }
        ensures left { (⟦<LoopbackPort<N, K> as Edge>⟧.told self.new).left
            ≡ (⟦<LoopbackPort<N, K> as Edge>⟧.told self.old).left }
        ensures most { (⟦<LoopbackPort<N, K> as Edge>⟧.told self.new).most
            ≡ (⟦<LoopbackPort<N, K> as Edge>⟧.told self.old).most }
        ensures ended { (⟦<LoopbackPort<N, K> as Edge>⟧.told self.new).ended
            ≡ (⟦<LoopbackPort<N, K> as Edge>⟧.told self.old).ended }
        ensures written { (⟦<LoopbackPort<N, K> as Edge>⟧.told self.new).written
            ≡ (⟦<LoopbackPort<N, K> as Edge>⟧.told self.old).written }
        ensures pieces { (⟦<LoopbackPort<N, K> as Edge>⟧.told self.new).pieces
            ≡ (⟦<LoopbackPort<N, K> as Edge>⟧.told self.old).pieces }
        ensures cause { HasCause (⟦<LoopbackPort<N, K> as Edge>⟧.told self.old).open_faults
            (⟦<LoopbackPort<N, K> as Edge>⟧.told self.new).open_faults result }
        ensures no_fault { OnOk result (NoFault (⟦<LoopbackPort<N, K> as Edge>⟧.told self.old)
            (⟦<LoopbackPort<N, K> as Edge>⟧.told self.new)) }
        ensures counts { NoCountFell (⟦<LoopbackPort<N, K> as Edge>⟧.told self.old)
            (⟦<LoopbackPort<N, K> as Edge>⟧.told self.new) }

        // What the calls on the network answered.
        ensures by { OnOk result (IfSome self.new.connection
            (IsOpened (N.binds self.old.net) N.has_port N.accepts (K.told self.old.out) (K.told self.new.out))) }
        ensures failed { OnErr result
            (OpenFails (N.binds self.old.net) N.has_port N.accepts (K.told self.old.out) (K.told self.new.out)) }

        // The sink of its number was given whole lines, and no empty piece.
        ensures said { UsedAsSink (K.told self.old.out) (K.told self.new.out) }
        ensures said_pieces { (K.told self.new.out).pieces ≡ (K.told self.old.out).pieces }
    {
        match accepted(&self.net, &mut self.out) {
            Ok(connection) => {
                self.connection = Some(connection);
                Ok(())
            }
            Err(_) => {
                self.open_faults = self.open_faults.saturating_add(1);
                Err(Failed)
            }
        }
    }
}

// Binds a port that is free, writes its number as one line, and accepts one connection.
#[tactic(auto, using(crate::proofs::Ending::port_lines))]
fn accepted<N: Network, K: Sink>(net: &N, out: &mut K) -> Result<N::Stream, Failed>
    requires { IsTrue (K.told out.old).ready }
    ensures out { UsedAsSink (K.told out.old) (K.told out.new) }
    ensures pieces { (K.told out.new).pieces ≡ (K.told out.old).pieces }
    ensures by { IfOk result (IsOpened (N.binds net.now) N.has_port N.accepts (K.told out.old) (K.told out.new)) }
    ensures failed { OnErr result (OpenFails (N.binds net.now) N.has_port N.accepts (K.told out.old) (K.told out.new)) }
{
    let Ok(listener) = net.listen_at(on_loopback(0)) else {
        return Err(Failed);
    };
    let Ok(number) = N::port_of(&listener) else {
        return Err(Failed);
    };
    write_all(out, port_line(number).as_slice())?;
    match N::accept_at(&listener, out) {
        Ok(connection) => Ok(connection),
        Err(_) => Err(Failed),
    }
}
