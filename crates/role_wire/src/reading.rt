// Reading a frame from a source.
ghost use Rattle.std.specs.Prelude.{◌≡◌, ◌≢◌, ◌+◌, ◌≤◌, ◌<◌, IsTrue, length, OnOk, IfOk, IfSome, Err, IsErrOf};
ghost use Rattle.rec_base.specs.BigEndian.{number_at, octets_of};
ghost use Rattle.edge_io.specs.Cause.{Rose, NoCountFell, NoFault};
ghost use Rattle.role_wire.specs.Ranges.{IsRole, IsFrame};
ghost use Rattle.role_wire.specs.Frame.{FrameRead, BodyRead, MetEnd, frame_at, body_limit};

use crate::frames::GREATEST_BODY;
use crate::inputs::body;
use crate::{FrameFault, FrameIn};
use byteorder::{BigEndian, ByteOrder};
use edge_io::{Role, Source, read_fill};

/// Reads the next frame for a role: the first of a session is a Setup, and no later one is.
///
/// Otherwise, and exactly then if the source tells its octets and no read failed: `Ended` if the input ends before
/// the frame; `Truncated` if it ends inside the two octets of the length, or inside a body whose
/// length is at most 4,096; `TooLong` if the length is above 4,096, and nothing after it is then
/// read; `BadBody` if the role takes no such body, with the offset of its first bad octet, counted
/// from the kind. `ReadFault` comes only if the source's count of read faults rose.
pub fn read_frame<S: Source>(src: &mut S, role: Role, first: bool) -> Result<FrameIn, FrameFault>
    requires ready { IsTrue (S.told src.old).ready }
    requires role { IsRole role }
    ensures ready { IsTrue (S.told src.new).ready }

    // What is read, and when it is refused.
    ensures read { FrameRead role first result (S.told src.old).left (S.told src.new).left }
    ensures exact { result ≢ Err FrameFault.ReadFault →
        IfSome (S.told src.old).left (λ octets. result ≡ frame_at role first octets) }
    ensures frame { IfOk result (IsFrame role first) }
    ensures fault { IsErrOf result FrameFault.ReadFault →
        Rose (S.told src.old).read_faults (S.told src.new).read_faults }
    ensures no_fault { result ≢ Err FrameFault.ReadFault → NoFault (S.told src.old) (S.told src.new) }

    // What becomes of the source. Each frame takes three octets or more.
    ensures some { OnOk result ((S.told src.new).most + 3 ≤ (S.told src.old).most) }
    ensures most { (S.told src.new).most ≤ (S.told src.old).most }
    ensures ended { MetEnd result (S.told src.old).ended (S.told src.new).ended }
    ensures written { (S.told src.new).written ≡ (S.told src.old).written }
    ensures pieces { (S.told src.new).pieces ≡ (S.told src.old).pieces }
    ensures counts { NoCountFell (S.told src.old) (S.told src.new) }
{
    next_frame(src, role, first)
}

// The length and then the body.
fn next_frame<S: Source>(src: &mut S, role: Role, first: bool) -> Result<FrameIn, FrameFault>
    requires ready { IsTrue (S.told src.old).ready }
    requires role { IsRole role }
    ensures ready { IsTrue (S.told src.new).ready }
    ensures read { FrameRead role first result (S.told src.old).left (S.told src.new).left }
    ensures fault { IsErrOf result FrameFault.ReadFault →
        Rose (S.told src.old).read_faults (S.told src.new).read_faults }
    ensures no_fault { result ≢ Err FrameFault.ReadFault → NoFault (S.told src.old) (S.told src.new) }
    ensures some { OnOk result ((S.told src.new).most + 3 ≤ (S.told src.old).most) }
    ensures most { (S.told src.new).most ≤ (S.told src.old).most }
    ensures ended { MetEnd result (S.told src.old).ended (S.told src.new).ended }
    ensures written { (S.told src.new).written ≡ (S.told src.old).written }
    ensures pieces { (S.told src.new).pieces ≡ (S.told src.old).pieces }
    ensures counts { NoCountFell (S.told src.old) (S.told src.new) }
{
    let mut head = [0u8; 2];
    let count = match read_fill(src, &mut head) {
        Ok(count) => count,
        Err(_) => return Err(FrameFault::ReadFault),
    };
    if count == 0 {
        return Err(FrameFault::Ended);
    }
    if count < 2 {
        return Err(FrameFault::Truncated);
    }
    let size = length_of(&head);
    if size > GREATEST_BODY {
        return Err(FrameFault::TooLong(size));
    }
    let mut buf = [0u8; GREATEST_BODY as usize];
    read_body(src, role, first, size, &mut buf[..size as usize])
}

// The length in its two octets.
fn length_of(head: &[u8]) -> u16
    requires { length head.now ≡ 2 }
    ensures value { result ≡ number_at head.now 0 2 }
    ensures octets { head.now ≡ octets_of 2 result }
{
    BigEndian::read_u16(head)
}

// The body, whose length is that of the buffer.
fn read_body<S: Source>(
    src: &mut S,
    role: Role,
    first: bool,
    size: u16,
    buf: &mut [u8],
) -> Result<FrameIn, FrameFault>
    requires ready { IsTrue (S.told src.old).ready }
    requires role { IsRole role }
    requires size { length buf.old ≡ size }
    requires allowed { size ≤ body_limit }
    ensures ready { IsTrue (S.told src.new).ready }
    ensures read { BodyRead role first size result (S.told src.old).left (S.told src.new).left }
    ensures fault { IsErrOf result FrameFault.ReadFault →
        Rose (S.told src.old).read_faults (S.told src.new).read_faults }
    ensures no_fault { result ≢ Err FrameFault.ReadFault → NoFault (S.told src.old) (S.told src.new) }
    ensures some { OnOk result ((S.told src.new).most + 1 ≤ (S.told src.old).most) }
    ensures most { (S.told src.new).most ≤ (S.told src.old).most }
    ensures ended { MetEnd result (S.told src.old).ended (S.told src.new).ended }
    ensures written { (S.told src.new).written ≡ (S.told src.old).written }
    ensures pieces { (S.told src.new).pieces ≡ (S.told src.old).pieces }
    ensures counts { NoCountFell (S.told src.old) (S.told src.new) }
{
    let count = match read_fill(src, buf) {
        Ok(count) => count,
        Err(_) => return Err(FrameFault::ReadFault),
    };
    if count < buf.len() {
        return Err(FrameFault::Truncated);
    }
    match body(role, first, buf) {
        Ok(frame) => Ok(frame),
        Err(place) => Err(FrameFault::BadBody(place)),
    }
}
