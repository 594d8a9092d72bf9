ghost use Rattle.std.specs.Prelude.{◌≡◌, ◌-◌, ◌≤◌, ◌<◌, ◌⊎◌, min, IsTrue, length, Some, true, [], IfOk, OnOk, IsErr, IfSome, vec_capacity};
ghost use Rattle.edge_io.specs.Told.{sink_told};
ghost use Rattle.edge_io.specs.Cause.{HasCause, NoCountFell, NoFault};
ghost use Rattle.edge_io.specs.Lines.{with_octets, with_piece};
ghost use Rattle.edge_io.specs.Octets.{Grows, octets_of};
ghost use Rattle.edge_io.specs.Script.{script_of, FailsNext, IsFull, after_call};

use crate::edge::Edge;
use crate::failed::Failed;
use crate::faults::Faults;
use crate::lines::{ends_line, has_octets};
use crate::scripted::Scripted;
use crate::sink::Sink;
use std::alloc::{AllocError, Global};

/// A sink over memory. Its calls with the numbers in `failing` fail, counted from 0, and each call
/// with octets for which it has no room.
#[derive(Drop)]
pub struct MemSink {
    octets: Vec<u8>,
    lines: bool,
    pieces: bool,
    room: usize,
    faults: Faults,
    ghost within: { length octets.items ≤ room },
    ghost reserved: { room ≤ vec_capacity octets },
}

impl MemSink {
    /// An empty sink with room for this many octets. The one error is want of memory.
    pub fn new(alloc: Global, room: usize, failing: Vec<u64>) -> Result<MemSink, AllocError>
        ensures told { IfOk result (λ sink. ⟦<MemSink as Edge>⟧.told sink ≡ sink_told (Some []) (Some true) (Some true) 0) }
        ensures writes { IfOk result (λ sink.
            ⟦<MemSink as Scripted>⟧.writes sink ≡ script_of failing.items) }
        ensures room { IfOk result (λ sink. ⟦<MemSink as Scripted>⟧.room sink ≡ room) }
    {
        Ok(MemSink {
            octets: Vec::with_capacity(alloc, room)?,
            lines: true,
            pieces: true,
            room,
            faults: Faults::new(failing),
        })
    }

    /// The octets written.
    pub fn octets(&self) -> &[u8]
        ensures { (⟦<MemSink as Edge>⟧.told self.now).written ≡ Some result.now }
    {
        self.octets.as_slice()
    }
}

impl Edge for MemSink {
    ghost told = { λ s. sink_told (Some s.octets.items) (Some s.lines) (Some s.pieces) s.faults.count };
}

impl Scripted for MemSink {
    ghost writes = { λ s. record { failing = s.faults.failing.items; next = s.faults.calls } };

    ghost room = { λ s. s.room };
}

impl Sink for MemSink {
    /// It takes as many octets as it has room for, and fails where it has none.
    fn write(&mut self, piece: &[u8]) -> Result<usize, Failed>
        requires { IsTrue (⟦<MemSink as Edge>⟧.told self.old).ready }
        ensures ready { IsTrue (⟦<MemSink as Edge>⟧.told self.new).ready }
        ensures count { IfOk result (λ n. n ≤ length piece.now) }
        ensures some { IfOk result (λ n. 0 < length piece.now → 0 < n) }
        ensures octets { Grows (⟦<MemSink as Edge>⟧.told self.old).written
            (⟦<MemSink as Edge>⟧.told self.new).written (octets_of result piece.now) }
        ensures lines { (⟦<MemSink as Edge>⟧.told self.new).lines
            ≡ with_piece piece.now (⟦<MemSink as Edge>⟧.told self.old).lines }
        ensures pieces { (⟦<MemSink as Edge>⟧.told self.new).pieces
            ≡ with_octets piece.now (⟦<MemSink as Edge>⟧.told self.old).pieces }
        ensures left { (⟦<MemSink as Edge>⟧.told self.new).left
            ≡ (⟦<MemSink as Edge>⟧.told self.old).left }
        ensures most { (⟦<MemSink as Edge>⟧.told self.new).most
            ≡ (⟦<MemSink as Edge>⟧.told self.old).most }
        ensures ended { (⟦<MemSink as Edge>⟧.told self.new).ended
            ≡ (⟦<MemSink as Edge>⟧.told self.old).ended }
        ensures cause { HasCause (⟦<MemSink as Edge>⟧.told self.old).write_faults
            (⟦<MemSink as Edge>⟧.told self.new).write_faults result }
        ensures no_fault { OnOk result (NoFault (⟦<MemSink as Edge>⟧.told self.old)
            (⟦<MemSink as Edge>⟧.told self.new)) }
        ensures counts { NoCountFell (⟦<MemSink as Edge>⟧.told self.old)
            (⟦<MemSink as Edge>⟧.told self.new) }

        // Which calls fail, and how many octets the others take.
        ensures listed { FailsNext (⟦<MemSink as Scripted>⟧.writes self.old) → IsErr result }
        ensures fails { IsErr result → FailsNext (⟦<MemSink as Scripted>⟧.writes self.old)
            ⊎ IsFull (⟦<MemSink as Scripted>⟧.room self.old)
            (⟦<MemSink as Edge>⟧.told self.old).written piece.now }
        ensures all { IfOk result (λ n. IfSome (⟦<MemSink as Edge>⟧.told self.old).written (λ octets.
            n ≡ min (length piece.now) (⟦<MemSink as Scripted>⟧.room self.old - length octets))) }
        ensures call { ⟦<MemSink as Scripted>⟧.writes self.new
            ≡ after_call (⟦<MemSink as Scripted>⟧.writes self.old) }
        ensures room { ⟦<MemSink as Scripted>⟧.room self.new ≡ ⟦<MemSink as Scripted>⟧.room self.old }
    {
        self.lines = self.lines && ends_line(piece);
        self.pieces = self.pieces && has_octets(piece);
        self.faults.next_call()?;
        let count = piece.len().min(self.room - self.octets.len());
        if count == 0 && !piece.is_empty() {
            return Err(self.faults.fault());
        }
        self.octets.extend_from_slice(&piece[..count]).unwrap();
        Ok(count)
    }
}
