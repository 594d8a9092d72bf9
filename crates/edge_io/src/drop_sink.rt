ghost use Rattle.std.specs.Prelude.{◌≡◌, ◌≤◌, ◌<◌, IsTrue, length, IfOk, OnOk, Ok, None};
ghost use Rattle.edge_io.specs.Told.{sink_told};
ghost use Rattle.edge_io.specs.Cause.{HasCause, NoCountFell, NoFault};
ghost use Rattle.edge_io.specs.Lines.{with_octets, with_piece};
ghost use Rattle.edge_io.specs.Octets.{Grows, octets_of};

use crate::edge::Edge;
use crate::failed::Failed;
use crate::sink::Sink;

/// A sink that drops what it is given. It never fails, and tells nothing of the octets.
#[derive(Clone, Copy)]
pub struct DropSink;

impl DropSink {
    /// A sink that drops what it is given.
    pub fn new() -> DropSink
        ensures { ⟦<DropSink as Edge>⟧.told result ≡ sink_told None None None 0 }
    {
        DropSink
    }
}

impl Edge for DropSink {
    ghost told = { λ _. sink_told None None None 0 };
}

impl Sink for DropSink {
    /// It takes all octets.
    fn write(&mut self, piece: &[u8]) -> Result<usize, Failed>
        requires { IsTrue (⟦<DropSink as Edge>⟧.told self.old).ready }
        ensures ready { IsTrue (⟦<DropSink as Edge>⟧.told self.new).ready }
        ensures count { IfOk result (λ n. n ≤ length piece.now) }
        ensures some { IfOk result (λ n. 0 < length piece.now → 0 < n) }
        ensures octets { Grows (⟦<DropSink as Edge>⟧.told self.old).written
            (⟦<DropSink as Edge>⟧.told self.new).written (octets_of result piece.now) }
        ensures lines { (⟦<DropSink as Edge>⟧.told self.new).lines
            ≡ with_piece piece.now (⟦<DropSink as Edge>⟧.told self.old).lines }
        ensures pieces { (⟦<DropSink as Edge>⟧.told self.new).pieces
            ≡ with_octets piece.now (⟦<DropSink as Edge>⟧.told self.old).pieces }
        ensures left { (⟦<DropSink as Edge>⟧.told self.new).left
            ≡ (⟦<DropSink as Edge>⟧.told self.old).left }
        ensures most { (⟦<DropSink as Edge>⟧.told self.new).most
            ≡ (⟦<DropSink as Edge>⟧.told self.old).most }
        ensures ended { (⟦<DropSink as Edge>⟧.told self.new).ended
            ≡ (⟦<DropSink as Edge>⟧.told self.old).ended }
        ensures cause { HasCause (⟦<DropSink as Edge>⟧.told self.old).write_faults
            (⟦<DropSink as Edge>⟧.told self.new).write_faults result }
        ensures no_fault { OnOk result (NoFault (⟦<DropSink as Edge>⟧.told self.old)
            (⟦<DropSink as Edge>⟧.told self.new)) }
        ensures counts { NoCountFell (⟦<DropSink as Edge>⟧.told self.old)
            (⟦<DropSink as Edge>⟧.told self.new) }

        // No call fails, and each takes all.
        ensures all { result ≡ Ok (length piece.now) }
    {
        Ok(piece.len())
    }
}
