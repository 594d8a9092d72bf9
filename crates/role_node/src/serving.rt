// A session over a port.
ghost use Rattle.std.specs.Prelude.{◌≡◌, ◌≢◌, IsTrue, length};
ghost use Rattle.edge_io.specs.Cause.{NoCountFell, NoFault};
ghost use Rattle.role_wire.specs.Frame.{frame_spelling};
ghost use Rattle.role_wire.specs.Ranges.{IsRole, IsFrameIn};
ghost use Rattle.role_wire.specs.Reply.{reply_spelling};
ghost use Rattle.role_node.specs.Actor.{turn, waits};
ghost use Rattle.role_node.specs.Session.{Session, SessionIsComplete, end_of};

use crate::Actor;
use crate::actor::turn;
use edge_io::{Port, Role, write_all};
use role_wire::{FrameFault, FrameIn, input_frame, read_frame, reply_frame};

/// How a session ended.
#[derive(Clone, Copy, PartialEq, Eq, Debug)]
pub enum ServeEnd {
    /// The input ended after a frame, and each frame has its reply.
    Done,
    /// The next octets are not a frame: their place, in octets from the beginning of the session, which
    /// stops at 2^64 - 1, and why.
    BadFrame(u64, FrameFault),
    /// A read of the port failed.
    ReadFault,
    /// A write of the port failed.
    WriteFault,
}

/// Serves the actor of a role over an open port: reads a frame, makes the step, writes the reply, and so
/// on to the end. The first frame is a Setup, and no later one is.
///
/// What is written is the replies to the frames read, in order, each as the step of the written machine
/// gives it, and nothing else. It takes no memory, and returns, since each frame takes three octets or
/// more of those that the port may still give.
pub fn serve<L: Port>(role: Role, port: &mut L) -> ServeEnd
    requires open { IsTrue (L.told port.old).ready }
    requires role { IsRole role }
    ensures open { IsTrue (L.told port.new).ready }

    // What was read and written, by the end, and the cause of each end.
    ensures session { Session role result (L.told port.old) (L.told port.new) }
    ensures complete { SessionIsComplete role result (L.told port.old) (L.told port.new) }

    // What becomes of the port's counts.
    ensures no_fault { result ≢ ServeEnd.ReadFault → result ≢ ServeEnd.WriteFault
        → NoFault (L.told port.old) (L.told port.new) }
    ensures counts { NoCountFell (L.told port.old) (L.told port.new) }

    // No piece that it is given is empty.
    ensures pieces { (L.told port.new).pieces ≡ (L.told port.old).pieces }
{
    session(role, port)
}

// The same, without what follows from it.
fn session<L: Port>(role: Role, port: &mut L) -> ServeEnd
    requires open { IsTrue (L.told port.old).ready }
    requires role { IsRole role }
    ensures open { IsTrue (L.told port.new).ready }
    ensures session { Session role result (L.told port.old) (L.told port.new) }
    ensures no_fault { result ≢ ServeEnd.ReadFault → result ≢ ServeEnd.WriteFault
        → NoFault (L.told port.old) (L.told port.new) }
    ensures counts { NoCountFell (L.told port.old) (L.told port.new) }
    ensures pieces { (L.told port.new).pieces ≡ (L.told port.old).pieces }
{
    let mut actor = None;
    let mut place = 0u64;
    'frames: loop {
        let frame = match read_frame(port, role, waits(&actor)) {
            Ok(frame) => frame,
            Err(fault) => return end_of(place, fault),
        };
        place = place.saturating_add(size_of(&frame));
        let reply = turn(role, &mut actor, &frame);
        match write_all(port, reply_frame(&reply).as_slice()) {
            Ok(()) => {}
            Err(_) => return ServeEnd::WriteFault,
        }
    }
}

// Whether the actor waits for its Setup.
fn waits(actor: &Option<Actor>) -> bool
    ensures { result ≡ waits actor.now }
{
    actor.is_none()
}

// The end of a session at a frame that is not read.
fn end_of(place: u64, fault: FrameFault) -> ServeEnd
    ensures { result ≡ end_of place fault }
{
    match fault {
        FrameFault::Ended => ServeEnd::Done,
        FrameFault::ReadFault => ServeEnd::ReadFault,
        bad => ServeEnd::BadFrame(place, bad),
    }
}

// The octets of a frame, the two of its length among them.
fn size_of(frame: &FrameIn) -> u64
    requires { IsFrameIn frame.now }
    ensures { result ≡ length (frame_spelling frame.now) }
{
    input_frame(frame).as_slice().len() as u64
}
