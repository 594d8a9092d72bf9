ghost use Rattle.std.specs.Prelude.{◌≡◌, ◌+◌, ◌≤◌, ◌<◌, IsTrue, length, IfOk, OnOk, IfSome};
ghost use Rattle.edge_io.specs.Cause.{HasCause, NoCountFell, NoFault};
ghost use Rattle.edge_io.specs.Octets.{Gives, MetNoEnd, octets_of};
ghost use Rattle.edge_io.specs.Told.{HasEnded};

use crate::edge::Edge;
use crate::failed::Failed;

/// What octets are read from.
pub trait Source: Edge {
    /// Reads the next octets into the front of `buf` and answers how many. At a buffer that is not
    /// empty, 0 is the end of the input. `Failed` where it failed, and counted a fault.
    fn read(&mut self, buf: &mut [u8]) -> Result<usize, Failed>
        requires { IsTrue (Self.told self.old).ready }
        ensures ready { IsTrue (Self.told self.new).ready }
        ensures count { IfOk result (λ n. n ≤ length buf.old) }
        ensures octets { Gives (Self.told self.old).left (Self.told self.new).left
            (octets_of result buf.new) }
        ensures end { IfOk result (λ n. n ≡ 0 → 0 < length buf.old →
            HasEnded (Self.told self.new)) }
        ensures no_end { MetNoEnd result (Self.told self.old) (Self.told self.new) }
        ensures nothing { length buf.old ≡ 0 →
            (Self.told self.new).ended ≡ (Self.told self.old).ended }
        ensures most { (Self.told self.new).most + length (octets_of result buf.new)
            ≤ (Self.told self.old).most }
        ensures written { (Self.told self.new).written ≡ (Self.told self.old).written }
        ensures pieces { (Self.told self.new).pieces ≡ (Self.told self.old).pieces }
        ensures cause { HasCause (Self.told self.old).read_faults (Self.told self.new).read_faults
            result }
        ensures no_fault { OnOk result (NoFault (Self.told self.old) (Self.told self.new)) }
        ensures counts { NoCountFell (Self.told self.old) (Self.told self.new) };

    ghost told_within: { (source : Self) →
        IfSome (Self.told source).left (λ octets. length octets ≤ (Self.told source).most) };
}
