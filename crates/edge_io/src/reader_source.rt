ghost use Rattle.std.specs.Prelude.{◌≡◌, ◌+◌, ◌^◌, ◌≤◌, ◌<◌, ◌⊎◌, min, IsTrue, length, IfOk, OnOk, OnErr, Ok, None, false};
ghost use Rattle.std.specs.Io.{ReadsAtMost};
ghost use Rattle.std.specs.Io.KnownBytes.{ReadConsumes};
ghost use Rattle.edge_io.specs.Told.{HasEnded, source_told};
ghost use Rattle.edge_io.specs.Cause.{HasCause, NoCountFell, NoFault};
ghost use Rattle.edge_io.specs.Octets.{Gives, MetNoEnd, octets_of};
ghost use Rattle.edge_io.specs.Tries.{LastAnswers, GivesUp};

use crate::edge::Edge;
use crate::failed::Failed;
use crate::interrupted::is_interrupted;
use crate::reader::Reader;
use crate::source::Source;

/// The greatest number of octets that a reader's source gives.
pub(crate) const MOST: usize = 1 << 62;

/// A source over a reader, such as standard input. It counts each error of the reader, and tells
/// nothing of the octets. It gives at most 2^62 octets: a read past them fails.
#[derive(Drop)]
pub struct ReaderSource<R: Drop> {
    /// The reader that the octets come from.
    pub reader: R,
    most: usize,
    ended: bool,
    faults: u64,
}

impl<R: Reader + Drop> ReaderSource<R> {
    /// A source that gives what this reader gives.
    pub fn new(reader: R) -> ReaderSource<R>
        ensures told { ⟦<ReaderSource<R> as Edge>⟧.told result ≡ source_told None (2 ^ 62) false 0 }
        ensures reader { result.reader ≡ reader }
    {
        ReaderSource {
            reader,
            most: MOST,
            ended: false,
            faults: 0,
        }
    }
}

impl<R: Reader + Drop> Edge for ReaderSource<R> {
    ghost told = { λ s. source_told None s.most s.ended s.faults };
}

impl<R: Reader + Drop> Source for ReaderSource<R> {
    ghost use Rattle.std.proofs.Common.{rules};

    /// It hands on what the reader gives.
    fn read(&mut self, buf: &mut [u8]) -> Result<usize, Failed>
        requires { IsTrue (⟦<ReaderSource<R> as Edge>⟧.told self.old).ready }
        ensures ready { IsTrue (⟦<ReaderSource<R> as Edge>⟧.told self.new).ready }
        ensures count { IfOk result (λ n. n ≤ length buf.old) }
        ensures octets { Gives (⟦<ReaderSource<R> as Edge>⟧.told self.old).left
            (⟦<ReaderSource<R> as Edge>⟧.told self.new).left (octets_of result buf.new) }
        ensures end { IfOk result (λ n. n ≡ 0 → 0 < length buf.old →
            HasEnded (⟦<ReaderSource<R> as Edge>⟧.told self.new)) }
        ensures no_end { MetNoEnd result (⟦<ReaderSource<R> as Edge>⟧.told self.old)
            (⟦<ReaderSource<R> as Edge>⟧.told self.new) }
        ensures nothing { length buf.old ≡ 0 → (⟦<ReaderSource<R> as Edge>⟧.told self.new).ended
            ≡ (⟦<ReaderSource<R> as Edge>⟧.told self.old).ended }
        ensures most { (⟦<ReaderSource<R> as Edge>⟧.told self.new).most
            + length (octets_of result buf.new) ≤ (⟦<ReaderSource<R> as Edge>⟧.told self.old).most }
        ensures written { (⟦<ReaderSource<R> as Edge>⟧.told self.new).written
            ≡ (⟦<ReaderSource<R> as Edge>⟧.told self.old).written }
        ensures pieces { (⟦<ReaderSource<R> as Edge>⟧.told self.new).pieces
            ≡ (⟦<ReaderSource<R> as Edge>⟧.told self.old).pieces }
        ensures cause { HasCause (⟦<ReaderSource<R> as Edge>⟧.told self.old).read_faults
            (⟦<ReaderSource<R> as Edge>⟧.told self.new).read_faults result }
        ensures no_fault { OnOk result (NoFault (⟦<ReaderSource<R> as Edge>⟧.told self.old)
            (⟦<ReaderSource<R> as Edge>⟧.told self.new)) }
        ensures counts { NoCountFell (⟦<ReaderSource<R> as Edge>⟧.told self.old)
            (⟦<ReaderSource<R> as Edge>⟧.told self.new) }
        ensures passed { ReadConsumes (R.remaining self.old.reader) (R.remaining self.new.reader)
            result buf.new }

        // What is answered is what the reader answered. A read fails by itself only past 2^62 octets.
        ensures spent { (⟦<ReaderSource<R> as Edge>⟧.told self.new).most
            + length (octets_of result buf.new) ≡ (⟦<ReaderSource<R> as Edge>⟧.told self.old).most }
        ensures answered { IfOk result (λ n.
            LastAnswers (R.answers (min (length buf.old) (⟦<ReaderSource<R> as Edge>⟧.told self.old).most)) (Ok n)
            self.old.reader self.new.reader) }
        ensures failed { OnErr result (GivesUp (R.answers (min (length buf.old) (⟦<ReaderSource<R> as Edge>⟧.told self.old).most))
            self.old.reader self.new.reader
            ⊎ ((⟦<ReaderSource<R> as Edge>⟧.told self.old).most ≡ 0)) }
    {
        if self.most > 0 {
            let room = buf.len().min(self.most);
            if let Ok(count) = read_once(&mut self.reader, &mut buf[..room]) {
                self.most -= count;
                if count == 0 && room > 0 {
                    self.ended = true;
                }
                return Ok(count);
            }
        }
        self.faults = self.faults.saturating_add(1);
        Err(Failed)
    }

    ghost told_within = { Prim.search rules };
}

// An interrupted read gave nothing: it is made again, as by the loops of std, and is no fault.
pub(crate) fn read_once<R: Reader>(reader: &mut R, buf: &mut [u8]) -> Result<usize, Failed>
    ensures bound { ReadsAtMost result buf.new }
    ensures bytes { ReadConsumes (R.remaining reader.old) (R.remaining reader.new) result buf.new }
    ensures answered { IfOk result (λ n. LastAnswers (R.answers (length buf.old)) (Ok n) reader.old reader.new) }
    ensures failed { OnErr result (GivesUp (R.answers (length buf.old)) reader.old reader.new) }
{
    for _tries in 0..u64::MAX {
        match reader.try_read(buf) {
            Ok(count) => return Ok(count),
            Err(e) => {
                if !is_interrupted(&e) {
                    return Err(Failed);
                }
            }
        }
    }
    Err(Failed)
}
