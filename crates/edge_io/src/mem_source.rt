ghost use Rattle.std.specs.Prelude.{◌≡◌, ◌+◌, ◌≤◌, ◌<◌, ◌↔◌, min, IsTrue, length, drop, IfOk, OnOk, IsErr, Some, false};
ghost use Rattle.edge_io.specs.Told.{HasEnded, source_told};
ghost use Rattle.edge_io.specs.Cause.{HasCause, NoCountFell, NoFault};
ghost use Rattle.edge_io.specs.Octets.{Gives, MetNoEnd, octets_of};
ghost use Rattle.edge_io.specs.Script.{script_of, FailsNext, after_call};

use crate::copying::copy_front;
use crate::edge::Edge;
use crate::failed::Failed;
use crate::faults::Faults;
use crate::scripted::Scripted;
use crate::source::Source;

/// A source over memory, whose calls with the numbers in `failing` fail, counted from 0.
#[derive(Drop)]
pub struct MemSource {
    octets: Vec<u8>,
    at: usize,
    ended: bool,
    faults: Faults,
    ghost within: { at ≤ length octets.items },
}

impl MemSource {
    /// A source that has these octets left.
    pub fn new(octets: Vec<u8>, failing: Vec<u64>) -> MemSource
        ensures told { ⟦<MemSource as Edge>⟧.told result
            ≡ source_told (Some octets.items) (length octets.items) false 0 }
        ensures reads { ⟦<MemSource as Scripted>⟧.reads result ≡ script_of failing.items }
    {
        MemSource {
            octets,
            at: 0,
            ended: false,
            faults: Faults::new(failing),
        }
    }
}

impl Edge for MemSource {
    ghost told = { λ s. source_told (Some (drop s.at s.octets.items))
        (length (drop s.at s.octets.items)) s.ended s.faults.count };
}

impl Scripted for MemSource {
    ghost reads = { λ s. record { failing = s.faults.failing.items; next = s.faults.calls } };
}

impl Source for MemSource {
    ghost use Rattle.std.proofs.Common.{rules};

    /// It gives as many octets as are left, or as `buf` has room for.
    fn read(&mut self, buf: &mut [u8]) -> Result<usize, Failed>
        requires { IsTrue (⟦<MemSource as Edge>⟧.told self.old).ready }
        ensures ready { IsTrue (⟦<MemSource as Edge>⟧.told self.new).ready }
        ensures count { IfOk result (λ n. n ≤ length buf.old) }
        ensures octets { Gives (⟦<MemSource as Edge>⟧.told self.old).left
            (⟦<MemSource as Edge>⟧.told self.new).left (octets_of result buf.new) }
        ensures end { IfOk result (λ n. n ≡ 0 → 0 < length buf.old →
            HasEnded (⟦<MemSource as Edge>⟧.told self.new)) }
        ensures no_end { MetNoEnd result (⟦<MemSource as Edge>⟧.told self.old)
            (⟦<MemSource as Edge>⟧.told self.new) }
        ensures nothing { length buf.old ≡ 0 → (⟦<MemSource as Edge>⟧.told self.new).ended
            ≡ (⟦<MemSource as Edge>⟧.told self.old).ended }
        ensures most { (⟦<MemSource as Edge>⟧.told self.new).most
            + length (octets_of result buf.new) ≤ (⟦<MemSource as Edge>⟧.told self.old).most }
        ensures written { (⟦<MemSource as Edge>⟧.told self.new).written
            ≡ (⟦<MemSource as Edge>⟧.told self.old).written }
        ensures pieces { (⟦<MemSource as Edge>⟧.told self.new).pieces
            ≡ (⟦<MemSource as Edge>⟧.told self.old).pieces }
        ensures cause { HasCause (⟦<MemSource as Edge>⟧.told self.old).read_faults
            (⟦<MemSource as Edge>⟧.told self.new).read_faults result }
        ensures no_fault { OnOk result (NoFault (⟦<MemSource as Edge>⟧.told self.old)
            (⟦<MemSource as Edge>⟧.told self.new)) }
        ensures counts { NoCountFell (⟦<MemSource as Edge>⟧.told self.old)
            (⟦<MemSource as Edge>⟧.told self.new) }

        // Which calls fail, and how many octets the others give.
        ensures all { IfOk result (λ n.
            n ≡ min (⟦<MemSource as Edge>⟧.told self.old).most (length buf.old)) }
        ensures fails { IsErr result ↔ FailsNext (⟦<MemSource as Scripted>⟧.reads self.old) }
        ensures call { ⟦<MemSource as Scripted>⟧.reads self.new
            ≡ after_call (⟦<MemSource as Scripted>⟧.reads self.old) }
    {
        self.faults.next_call()?;
        let count = copy_front(&self.octets[self.at..], buf);
        self.at += count;
        if count == 0 && !buf.is_empty() {
            self.ended = true;
        }
        Ok(count)
    }

    ghost told_within = { Prim.search rules };
}
