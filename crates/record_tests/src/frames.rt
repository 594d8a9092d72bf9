// Frames as octets. The octets that come from a run of the ordinary scenario were computed by another
// implementation; all others were written down from the table of frames (`docs/FRAMES.md`).
ghost use Rattle.role_wire.specs.Ranges.{IsRole};

mod bad;
mod replies;
mod sources;

use crate::values::same_at;
use edge_io::{Role, SliceSource};
use rec_base::Bounded;
use role_wire::{FrameFault, read_frame};
use std::process::Abort;

// A frame is refused by this fault.
fn expect_fault<R: Abort + AllocGlobal>(
    rt: &R,
    role: Role,
    first: bool,
    text: &str,
    want: FrameFault,
)
    requires { IsRole role }
{
    let octets = hex::decode(rt.alloc(), text).expect(rt, text);
    let mut src = SliceSource::new(octets.as_slice());
    match read_frame(&mut src, role, first) {
        Ok(_) => panic!(rt; "{text} is read"),
        Err(fault) => same_at(rt, text, fault, want),
    }
}

// The octets that a text in hex spells.
fn octets_of<R: Abort + AllocGlobal, const N: usize>(rt: &R, text: &str) -> Bounded<N> {
    let octets = hex::decode(rt.alloc(), text).expect(rt, text);
    let mut out = Bounded::new();
    for octet in octets.as_slice() {
        assert!(rt; out.try_push(*octet).is_ok(), "{text}");
    }
    out
}
