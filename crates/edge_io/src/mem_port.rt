ghost use Rattle.std.specs.Prelude.{◌≡◌, ◌+◌, ◌-◌, ◌≤◌, ◌<◌, ◌↔◌, ◌⊎◌, min, IsTrue, length, IfOk, OnOk, OnErr, IsOk, IsErr, IfSome, false};
ghost use Rattle.edge_io.specs.Told.{HasEnded, port_told, sink_told};
ghost use Rattle.edge_io.specs.Cause.{HasCause, NoCountFell, NoFault};
ghost use Rattle.edge_io.specs.Lines.{with_octets, with_piece};
ghost use Rattle.edge_io.specs.Octets.{Gives, Grows, MetNoEnd, octets_of};
ghost use Rattle.edge_io.specs.Script.{FailsNext, IsFull, after_call};

use crate::edge::Edge;
use crate::failed::Failed;
use crate::mem_sink::MemSink;
use crate::mem_source::MemSource;
use crate::port::Port;
use crate::scripted::Scripted;
use crate::sink::Sink;
use crate::source::Source;

/// A port over memory, whose opening never fails.
#[derive(Drop)]
pub struct MemPort {
    source: MemSource,
    sink: MemSink,
    is_open: bool,
}

impl MemPort {
    /// A port that is not open, over a source and a sink.
    pub fn new(source: MemSource, sink: MemSink) -> MemPort
        ensures told { ⟦<MemPort as Edge>⟧.told result
            ≡ port_told (⟦<MemSource as Edge>⟧.told source) (⟦<MemSink as Edge>⟧.told sink) false }
        ensures reads { ⟦<MemPort as Scripted>⟧.reads result
            ≡ ⟦<MemSource as Scripted>⟧.reads source }
        ensures writes { ⟦<MemPort as Scripted>⟧.writes result
            ≡ ⟦<MemSink as Scripted>⟧.writes sink }
        ensures room { ⟦<MemPort as Scripted>⟧.room result ≡ ⟦<MemSink as Scripted>⟧.room sink }
    {
        MemPort {
            source,
            sink,
            is_open: false,
        }
    }

    /// The sink that the port writes to.
    pub fn sink(&self) -> &MemSink
        ensures told { ⟦<MemSink as Edge>⟧.told result.now
            ≡ sink_told (⟦<MemPort as Edge>⟧.told self.now).written
            (⟦<MemPort as Edge>⟧.told self.now).lines
            (⟦<MemPort as Edge>⟧.told self.now).pieces
            (⟦<MemPort as Edge>⟧.told self.now).write_faults }
        ensures writes { ⟦<MemSink as Scripted>⟧.writes result.now
            ≡ ⟦<MemPort as Scripted>⟧.writes self.now }
        ensures room { ⟦<MemSink as Scripted>⟧.room result.now ≡ ⟦<MemPort as Scripted>⟧.room self.now }
    {
        &self.sink
    }
}

impl Edge for MemPort {
    ghost told = { λ p. port_told (⟦<MemSource as Edge>⟧.told p.source)
        (⟦<MemSink as Edge>⟧.told p.sink) p.is_open };
}

impl Scripted for MemPort {
    ghost reads = { λ p. ⟦<MemSource as Scripted>⟧.reads p.source };

    ghost writes = { λ p. ⟦<MemSink as Scripted>⟧.writes p.sink };

    ghost room = { λ p. ⟦<MemSink as Scripted>⟧.room p.sink };
}

impl Source for MemPort {
    ghost use Rattle.std.proofs.Common.{rules};

    /// It reads the source.
    fn read(&mut self, buf: &mut [u8]) -> Result<usize, Failed>
        requires { IsTrue (⟦<MemPort as Edge>⟧.told self.old).ready }
        ensures ready { IsTrue (⟦<MemPort as Edge>⟧.told self.new).ready }
        ensures count { IfOk result (λ n. n ≤ length buf.old) }
        ensures octets { Gives (⟦<MemPort as Edge>⟧.told self.old).left
            (⟦<MemPort as Edge>⟧.told self.new).left (octets_of result buf.new) }
        ensures end { IfOk result (λ n. n ≡ 0 → 0 < length buf.old →
            HasEnded (⟦<MemPort as Edge>⟧.told self.new)) }
        ensures no_end { MetNoEnd result (⟦<MemPort as Edge>⟧.told self.old)
            (⟦<MemPort as Edge>⟧.told self.new) }
        ensures nothing { length buf.old ≡ 0 → (⟦<MemPort as Edge>⟧.told self.new).ended
            ≡ (⟦<MemPort as Edge>⟧.told self.old).ended }
        ensures most { (⟦<MemPort as Edge>⟧.told self.new).most
            + length (octets_of result buf.new) ≤ (⟦<MemPort as Edge>⟧.told self.old).most }
        ensures written { (⟦<MemPort as Edge>⟧.told self.new).written
            ≡ (⟦<MemPort as Edge>⟧.told self.old).written }
        ensures pieces { (⟦<MemPort as Edge>⟧.told self.new).pieces
            ≡ (⟦<MemPort as Edge>⟧.told self.old).pieces }
        ensures cause { HasCause (⟦<MemPort as Edge>⟧.told self.old).read_faults
            (⟦<MemPort as Edge>⟧.told self.new).read_faults result }
        ensures no_fault { OnOk result (NoFault (⟦<MemPort as Edge>⟧.told self.old)
            (⟦<MemPort as Edge>⟧.told self.new)) }
        ensures counts { NoCountFell (⟦<MemPort as Edge>⟧.told self.old)
            (⟦<MemPort as Edge>⟧.told self.new) }

        // Which calls fail, and how many octets the others give.
        ensures all { IfOk result (λ n.
            n ≡ min (⟦<MemPort as Edge>⟧.told self.old).most (length buf.old)) }
        ensures fails { IsErr result ↔ FailsNext (⟦<MemPort as Scripted>⟧.reads self.old) }
        ensures call { ⟦<MemPort as Scripted>⟧.reads self.new
            ≡ after_call (⟦<MemPort as Scripted>⟧.reads self.old) }
        ensures other { ⟦<MemPort as Scripted>⟧.writes self.new
            ≡ ⟦<MemPort as Scripted>⟧.writes self.old }
        ensures room { ⟦<MemPort as Scripted>⟧.room self.new ≡ ⟦<MemPort as Scripted>⟧.room self.old }
    {
        self.source.read(buf)
    }

    ghost told_within = { Prim.search rules };
}

impl Sink for MemPort {
    /// It writes the sink.
    fn write(&mut self, piece: &[u8]) -> Result<usize, Failed>
        requires { IsTrue (⟦<MemPort as Edge>⟧.told self.old).ready }
        ensures ready { IsTrue (⟦<MemPort as Edge>⟧.told self.new).ready }
        ensures count { IfOk result (λ n. n ≤ length piece.now) }
        ensures some { IfOk result (λ n. 0 < length piece.now → 0 < n) }
        ensures octets { Grows (⟦<MemPort as Edge>⟧.told self.old).written
            (⟦<MemPort as Edge>⟧.told self.new).written (octets_of result piece.now) }
        ensures lines { (⟦<MemPort as Edge>⟧.told self.new).lines
            ≡ with_piece piece.now (⟦<MemPort as Edge>⟧.told self.old).lines }
        ensures pieces { (⟦<MemPort as Edge>⟧.told self.new).pieces
            ≡ with_octets piece.now (⟦<MemPort as Edge>⟧.told self.old).pieces }
        ensures left { (⟦<MemPort as Edge>⟧.told self.new).left
            ≡ (⟦<MemPort as Edge>⟧.told self.old).left }
        ensures most { (⟦<MemPort as Edge>⟧.told self.new).most
            ≡ (⟦<MemPort as Edge>⟧.told self.old).most }
        ensures ended { (⟦<MemPort as Edge>⟧.told self.new).ended
            ≡ (⟦<MemPort as Edge>⟧.told self.old).ended }
        ensures cause { HasCause (⟦<MemPort as Edge>⟧.told self.old).write_faults
            (⟦<MemPort as Edge>⟧.told self.new).write_faults result }
        ensures no_fault { OnOk result (NoFault (⟦<MemPort as Edge>⟧.told self.old)
            (⟦<MemPort as Edge>⟧.told self.new)) }
        ensures counts { NoCountFell (⟦<MemPort as Edge>⟧.told self.old)
            (⟦<MemPort as Edge>⟧.told self.new) }

        // Which calls fail, and how many octets the others take.
        ensures listed { FailsNext (⟦<MemPort as Scripted>⟧.writes self.old) → IsErr result }
        ensures fails { IsErr result → FailsNext (⟦<MemPort as Scripted>⟧.writes self.old)
            ⊎ IsFull (⟦<MemPort as Scripted>⟧.room self.old)
            (⟦<MemPort as Edge>⟧.told self.old).written piece.now }
        ensures all { IfOk result (λ n. IfSome (⟦<MemPort as Edge>⟧.told self.old).written (λ octets.
            n ≡ min (length piece.now) (⟦<MemPort as Scripted>⟧.room self.old - length octets))) }
        ensures call { ⟦<MemPort as Scripted>⟧.writes self.new
            ≡ after_call (⟦<MemPort as Scripted>⟧.writes self.old) }
        ensures room { ⟦<MemPort as Scripted>⟧.room self.new ≡ ⟦<MemPort as Scripted>⟧.room self.old }
        ensures other { ⟦<MemPort as Scripted>⟧.reads self.new
            ≡ ⟦<MemPort as Scripted>⟧.reads self.old }
    {
        self.sink.write(piece)
    }
}

impl Port for MemPort {
    /// It never fails, and leaves both sides as they were.
    fn open(&mut self) -> Result<(), Failed>
        requires { (⟦<MemPort as Edge>⟧.told self.old).ready ≡ false }
        ensures opened { OnOk result (IsTrue (⟦<MemPort as Edge>⟧.told self.new).ready) }
        ensures closed { OnErr result ((⟦<MemPort as Edge>⟧.told self.new).ready ≡ false) }
        ensures left { (⟦<MemPort as Edge>⟧.told self.new).left
            ≡ (⟦<MemPort as Edge>⟧.told self.old).left }
        ensures most { (⟦<MemPort as Edge>⟧.told self.new).most
            ≡ (⟦<MemPort as Edge>⟧.told self.old).most }
        ensures ended { (⟦<MemPort as Edge>⟧.told self.new).ended
            ≡ (⟦<MemPort as Edge>⟧.told self.old).ended }
        ensures written { (⟦<MemPort as Edge>⟧.told self.new).written
            ≡ (⟦<MemPort as Edge>⟧.told self.old).written }
        ensures pieces { (⟦<MemPort as Edge>⟧.told self.new).pieces
            ≡ (⟦<MemPort as Edge>⟧.told self.old).pieces }
        ensures cause { HasCause (⟦<MemPort as Edge>⟧.told self.old).open_faults
            (⟦<MemPort as Edge>⟧.told self.new).open_faults result }
        ensures no_fault { OnOk result (NoFault (⟦<MemPort as Edge>⟧.told self.old)
            (⟦<MemPort as Edge>⟧.told self.new)) }
        ensures counts { NoCountFell (⟦<MemPort as Edge>⟧.told self.old)
            (⟦<MemPort as Edge>⟧.told self.new) }

        // No opening fails, and no later call fails by it.
        ensures opens { IsOk result }
        ensures reads { ⟦<MemPort as Scripted>⟧.reads self.new
            ≡ ⟦<MemPort as Scripted>⟧.reads self.old }
        ensures writes { ⟦<MemPort as Scripted>⟧.writes self.new
            ≡ ⟦<MemPort as Scripted>⟧.writes self.old }
        ensures room { ⟦<MemPort as Scripted>⟧.room self.new ≡ ⟦<MemPort as Scripted>⟧.room self.old }
    {
        self.is_open = true;
        Ok(())
    }
}
