ghost use Rattle.std.specs.Prelude.{◌≡◌, ◌≤◌, ◌<◌, ◌⊎◌, IsTrue, length, IfOk, OnOk, OnErr, Ok, Some, None, true};
ghost use Rattle.std.specs.Io.{WritesAtMost};
ghost use Rattle.std.specs.Io.KnownBytes.{WriteAppends};
ghost use Rattle.edge_io.specs.Told.{sink_told};
ghost use Rattle.edge_io.specs.Cause.{HasCause, NoCountFell, NoFault};
ghost use Rattle.edge_io.specs.Lines.{with_octets, with_piece};
ghost use Rattle.edge_io.specs.Octets.{Grows, octets_of};
ghost use Rattle.edge_io.specs.Tries.{LastAnswers, GivesUp};

use crate::edge::Edge;
use crate::failed::Failed;
use crate::interrupted::is_interrupted;
use crate::lines::{ends_line, has_octets};
use crate::sink::Sink;
use crate::writer::Writer;

/// A sink over a writer, such as standard output. It counts each error of the writer and each write that took
/// nothing. Of the octets it tells no more than whether each piece was whole lines, and whether none was empty. It does not flush.
#[derive(Drop)]
pub struct WriterSink<W: Drop> {
    /// The writer that the octets go to.
    pub writer: W,
    lines: bool,
    pieces: bool,
    faults: u64,
}

impl<W: Writer + Drop> WriterSink<W> {
    /// A sink that hands on to this writer.
    pub fn new(writer: W) -> WriterSink<W>
        ensures told { ⟦<WriterSink<W> as Edge>⟧.told result ≡ sink_told None (Some true) (Some true) 0 }
        ensures writer { result.writer ≡ writer }
    {
        WriterSink {
            writer,
            lines: true,
            pieces: true,
            faults: 0,
        }
    }
}

impl<W: Writer + Drop> Edge for WriterSink<W> {
    ghost told = { λ s. sink_told None (Some s.lines) (Some s.pieces) s.faults };
}

impl<W: Writer + Drop> Sink for WriterSink<W> {
    /// It hands on to the writer, which takes what this answers.
    fn write(&mut self, piece: &[u8]) -> Result<usize, Failed>
        requires { IsTrue (⟦<WriterSink<W> as Edge>⟧.told self.old).ready }
        ensures ready { IsTrue (⟦<WriterSink<W> as Edge>⟧.told self.new).ready }
        ensures count { IfOk result (λ n. n ≤ length piece.now) }
        ensures some { IfOk result (λ n. 0 < length piece.now → 0 < n) }
        ensures octets { Grows (⟦<WriterSink<W> as Edge>⟧.told self.old).written
            (⟦<WriterSink<W> as Edge>⟧.told self.new).written (octets_of result piece.now) }
        ensures lines { (⟦<WriterSink<W> as Edge>⟧.told self.new).lines
            ≡ with_piece piece.now (⟦<WriterSink<W> as Edge>⟧.told self.old).lines }
        ensures pieces { (⟦<WriterSink<W> as Edge>⟧.told self.new).pieces
            ≡ with_octets piece.now (⟦<WriterSink<W> as Edge>⟧.told self.old).pieces }
        ensures left { (⟦<WriterSink<W> as Edge>⟧.told self.new).left
            ≡ (⟦<WriterSink<W> as Edge>⟧.told self.old).left }
        ensures most { (⟦<WriterSink<W> as Edge>⟧.told self.new).most
            ≡ (⟦<WriterSink<W> as Edge>⟧.told self.old).most }
        ensures ended { (⟦<WriterSink<W> as Edge>⟧.told self.new).ended
            ≡ (⟦<WriterSink<W> as Edge>⟧.told self.old).ended }
        ensures cause { HasCause (⟦<WriterSink<W> as Edge>⟧.told self.old).write_faults
            (⟦<WriterSink<W> as Edge>⟧.told self.new).write_faults result }
        ensures no_fault { OnOk result (NoFault (⟦<WriterSink<W> as Edge>⟧.told self.old)
            (⟦<WriterSink<W> as Edge>⟧.told self.new)) }
        ensures counts { NoCountFell (⟦<WriterSink<W> as Edge>⟧.told self.old)
            (⟦<WriterSink<W> as Edge>⟧.told self.new) }
        ensures passed { WriteAppends (W.contents self.old.writer) (W.contents self.new.writer)
            result piece.now }

        // What is answered is what the writer answered. Only a write that took nothing fails besides.
        ensures answered { IfOk result (λ n.
            LastAnswers (W.answers piece.now) (Ok n) self.old.writer self.new.writer) }
        ensures failed { OnErr result (GivesUp (W.answers piece.now) self.old.writer self.new.writer
            ⊎ (LastAnswers (W.answers piece.now) (Ok 0) self.old.writer self.new.writer
            × (0 < length piece.now))) }
    {
        self.lines = self.lines && ends_line(piece);
        self.pieces = self.pieces && has_octets(piece);
        if let Ok(count) = write_once(&mut self.writer, piece) {
            if count > 0 || piece.is_empty() {
                return Ok(count);
            }
        }
        self.faults = self.faults.saturating_add(1);
        Err(Failed)
    }
}

// An interrupted write took nothing: it is made again, as by the loops of std, and is no fault.
pub(crate) fn write_once<W: Writer>(writer: &mut W, piece: &[u8]) -> Result<usize, Failed>
    ensures bound { WritesAtMost result piece.now }
    ensures bytes { WriteAppends (W.contents writer.old) (W.contents writer.new) result piece.now }
    ensures answered { IfOk result (λ n. LastAnswers (W.answers piece.now) (Ok n) writer.old writer.new) }
    ensures failed { OnErr result (GivesUp (W.answers piece.now) writer.old writer.new) }
{
    for _tries in 0..u64::MAX {
        match writer.try_write(piece) {
            Ok(count) => return Ok(count),
            Err(e) => {
                if !is_interrupted(&e) {
                    return Err(Failed);
                }
            }
        }
    }
    Err(Failed)
}
