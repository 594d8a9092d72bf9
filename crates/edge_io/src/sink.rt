ghost use Rattle.std.specs.Prelude.{◌≡◌, ◌≤◌, ◌<◌, IsTrue, length, IfOk, OnOk};
ghost use Rattle.edge_io.specs.Cause.{HasCause, NoCountFell, NoFault};
ghost use Rattle.edge_io.specs.Lines.{with_octets, with_piece};
ghost use Rattle.edge_io.specs.Octets.{Grows, octets_of};

use crate::edge::Edge;
use crate::failed::Failed;

/// What octets are written to.
pub trait Sink: Edge {
    /// Takes octets from the front of `piece` and answers how many. Of a piece that is not empty
    /// it takes at least one, or answers `Failed` and counts a fault.
    fn write(&mut self, piece: &[u8]) -> Result<usize, Failed>
        requires { IsTrue (Self.told self.old).ready }
        ensures ready { IsTrue (Self.told self.new).ready }
        ensures count { IfOk result (λ n. n ≤ length piece.now) }
        ensures some { IfOk result (λ n. 0 < length piece.now → 0 < n) }
        ensures octets { Grows (Self.told self.old).written (Self.told self.new).written
            (octets_of result piece.now) }
        ensures lines { (Self.told self.new).lines ≡ with_piece piece.now (Self.told self.old).lines }
        ensures pieces { (Self.told self.new).pieces ≡ with_octets piece.now (Self.told self.old).pieces }
        ensures left { (Self.told self.new).left ≡ (Self.told self.old).left }
        ensures most { (Self.told self.new).most ≡ (Self.told self.old).most }
        ensures ended { (Self.told self.new).ended ≡ (Self.told self.old).ended }
        ensures cause { HasCause (Self.told self.old).write_faults (Self.told self.new).write_faults
            result }
        ensures no_fault { OnOk result (NoFault (Self.told self.old) (Self.told self.new)) }
        ensures counts { NoCountFell (Self.told self.old) (Self.told self.new) };
}
