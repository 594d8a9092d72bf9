ghost use Rattle.std.specs.Prelude.{◌≡◌, IsTrue, false, OnOk, OnErr};
ghost use Rattle.edge_io.specs.Cause.{HasCause, NoCountFell, NoFault};

use crate::failed::Failed;
use crate::sink::Sink;
use crate::source::Source;

/// One connection, which is read and written once it is open.
pub trait Port: Source + Sink {
    /// Waits for the one connection that is served. The port is ready from then on. `Failed` where it did
    /// not open, and counted a fault.
    fn open(&mut self) -> Result<(), Failed>
        requires { (Self.told self.old).ready ≡ false }
        ensures opened { OnOk result (IsTrue (Self.told self.new).ready) }
        ensures closed { OnErr result ((Self.told self.new).ready ≡ false) }
        ensures left { (Self.told self.new).left ≡ (Self.told self.old).left }
        ensures most { (Self.told self.new).most ≡ (Self.told self.old).most }
        ensures ended { (Self.told self.new).ended ≡ (Self.told self.old).ended }
        ensures written { (Self.told self.new).written ≡ (Self.told self.old).written }
        ensures pieces { (Self.told self.new).pieces ≡ (Self.told self.old).pieces }
        ensures cause { HasCause (Self.told self.old).open_faults (Self.told self.new).open_faults
            result }
        ensures no_fault { OnOk result (NoFault (Self.told self.old) (Self.told self.new)) }
        ensures counts { NoCountFell (Self.told self.old) (Self.told self.new) };
}
