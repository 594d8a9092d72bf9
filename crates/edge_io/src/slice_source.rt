ghost use Rattle.std.specs.Prelude.{◌≡◌, ◌+◌, ◌≤◌, ◌<◌, min, IsTrue, length, IfOk, OnOk, IsOk, Some, false};
ghost use Rattle.edge_io.specs.Told.{HasEnded, source_told};
ghost use Rattle.edge_io.specs.Cause.{HasCause, NoCountFell, NoFault};
ghost use Rattle.edge_io.specs.Octets.{Gives, MetNoEnd, octets_of};

use crate::copying::copy_front;
use crate::edge::Edge;
use crate::failed::Failed;
use crate::source::Source;

/// A source over a slice. It never fails.
#[derive(Drop)]
pub struct SliceSource<'a> {
    rest: &'a [u8],
    ended: bool,
}

impl<'a> SliceSource<'a> {
    /// A source that has these octets left.
    pub fn new(octets: &'a [u8]) -> SliceSource<'a>
        ensures { ⟦<SliceSource<'a> as Edge>⟧.told result
            ≡ source_told (Some octets.now) (length octets.now) false 0 }
    {
        SliceSource {
            rest: octets,
            ended: false,
        }
    }
}

impl<'a> Edge for SliceSource<'a> {
    ghost told = { λ s. source_told (Some s.rest.now) (length s.rest.now) s.ended 0 };
}

impl<'a> Source for SliceSource<'a> {
    ghost use Rattle.std.proofs.Common.{rules};

    /// It gives as many octets as are left, or as `buf` has room for.
    fn read(&mut self, buf: &mut [u8]) -> Result<usize, Failed>
        requires { IsTrue (⟦<SliceSource<'a> as Edge>⟧.told self.old).ready }
        ensures ready { IsTrue (⟦<SliceSource<'a> as Edge>⟧.told self.new).ready }
        ensures count { IfOk result (λ n. n ≤ length buf.old) }
        ensures octets { Gives (⟦<SliceSource<'a> as Edge>⟧.told self.old).left
            (⟦<SliceSource<'a> as Edge>⟧.told self.new).left (octets_of result buf.new) }
        ensures end { IfOk result (λ n. n ≡ 0 → 0 < length buf.old →
            HasEnded (⟦<SliceSource<'a> as Edge>⟧.told self.new)) }
        ensures no_end { MetNoEnd result (⟦<SliceSource<'a> as Edge>⟧.told self.old)
            (⟦<SliceSource<'a> as Edge>⟧.told self.new) }
        ensures nothing { length buf.old ≡ 0 → (⟦<SliceSource<'a> as Edge>⟧.told self.new).ended
            ≡ (⟦<SliceSource<'a> as Edge>⟧.told self.old).ended }
        ensures most { (⟦<SliceSource<'a> as Edge>⟧.told self.new).most
            + length (octets_of result buf.new) ≤ (⟦<SliceSource<'a> as Edge>⟧.told self.old).most }
        ensures written { (⟦<SliceSource<'a> as Edge>⟧.told self.new).written
            ≡ (⟦<SliceSource<'a> as Edge>⟧.told self.old).written }
        ensures pieces { (⟦<SliceSource<'a> as Edge>⟧.told self.new).pieces
            ≡ (⟦<SliceSource<'a> as Edge>⟧.told self.old).pieces }
        ensures cause { HasCause (⟦<SliceSource<'a> as Edge>⟧.told self.old).read_faults
            (⟦<SliceSource<'a> as Edge>⟧.told self.new).read_faults result }
        ensures no_fault { OnOk result (NoFault (⟦<SliceSource<'a> as Edge>⟧.told self.old)
            (⟦<SliceSource<'a> as Edge>⟧.told self.new)) }
        ensures counts { NoCountFell (⟦<SliceSource<'a> as Edge>⟧.told self.old)
            (⟦<SliceSource<'a> as Edge>⟧.told self.new) }

        // No call fails, and each gives all it can.
        ensures gives { IsOk result }
        ensures all { IfOk result (λ n.
            n ≡ min (⟦<SliceSource<'a> as Edge>⟧.told self.old).most (length buf.old)) }
    {
        let count = copy_front(self.rest, buf);
        self.rest = &self.rest[count..];
        if count == 0 && !buf.is_empty() {
            self.ended = true;
        }
        Ok(count)
    }

    ghost told_within = { Prim.search rules };
}
