ghost use Rattle.std.specs.Prelude.{◌≡◌, ◌≢◌, false, IsTrue};
ghost use Rattle.edge_io.specs.Cause.{NoFault, NoCountFell};
ghost use Rattle.role_wire.specs.Ranges.{IsRole};
ghost use Rattle.lte_sec_app.specs.Run.{UsesSink};
ghost use Rattle.lte_sec_app.specs.Serve.{ServeAt, ServeIsComplete, SaidAt, bad_frame_text};

use crate::status::Status;
use edge_io::{Port, Role, Sink, write_all};
use itoa::Buffer;
use rec_base::Bounded;
use role_node::ServeEnd;

// The commands `serve`.
pub(crate) fn serve<W: Sink, L: Port>(role: Role, out: &mut W, port: &mut L) -> Status
    requires out_ready { IsTrue (W.told out.old).ready }
    requires port_closed { (L.told port.old).ready ≡ false }
    requires role { IsRole role }
    ensures at { ServeAt role result (L.told port.old) (L.told port.new) (W.told out.old) (W.told out.new) }
    ensures complete { ServeIsComplete role result (L.told port.old) (L.told port.new) }
    ensures no_memory { result ≢ Status.Memory }
    ensures no_port_fault { result ≢ Status.PeerFault → NoFault (L.told port.old) (L.told port.new) }
    ensures port { NoCountFell (L.told port.old) (L.told port.new) }
    ensures pieces { (L.told port.new).pieces ≡ (L.told port.old).pieces }
    ensures sink { UsesSink result (W.told out.old) (W.told out.new) }
{
    match port.open() {
        Ok(()) => {}
        Err(_) => return Status::PeerFault,
    }
    match role_node::serve(role, port) {
        ServeEnd::Done => Status::Done,
        ServeEnd::BadFrame(place, fault) => say_bad_frame(place, fault.number(), out),
        ServeEnd::ReadFault | ServeEnd::WriteFault => Status::PeerFault,
    }
}

// Writes the line for a frame that is none.
#[tactic(auto, using(crate::proofs::Ends::bad_frame_is))]
fn say_bad_frame<W: Sink>(place: u64, number: u8, out: &mut W) -> Status
    requires { IsTrue (W.told out.old).ready }
    ensures said { SaidAt (bad_frame_text place number) result (W.told out.old) (W.told out.new) }
    ensures no_memory { result ≢ Status.Memory }
    ensures sink { UsesSink result (W.told out.old) (W.told out.new) }
{
    match write_all(out, bad_frame_line(place, number).as_slice()) {
        Ok(()) => Status::BadFrame,
        Err(_) => Status::WriteFault,
    }
}

// That line. It takes no memory.
#[tactic(auto, unfolding(crate::specs::Serve::bad_frame_text))]
fn bad_frame_line(place: u64, number: u8) -> Bounded<40>
    ensures { result ≡ bad_frame_text place number }
{
    let mut digits = Buffer::new();
    let mut line = Bounded::new();
    line.append(b"bad frame ");
    line.append(digits.format(place).as_bytes());
    line.append(b" ");
    line.append(digits.format(number).as_bytes());
    line.append(b"\n");
    line
}
