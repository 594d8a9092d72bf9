// What a frame is.

use alg_choice::{Caps, Priority};
use lte_events::{ActorIn, Cells};
use rec_base::Bounded;

/// The octets of a frame: two of the length, and at most 4,096 of the body.
pub type Frame = Bounded<4098>;

/// The greatest length of a body, in octets.
pub const GREATEST_BODY: u16 = 4096;

/// What an actor is told.
#[derive(Drop)]
pub enum FrameIn {
    /// What it starts with. The first frame of a session is one, and no later frame is.
    Setup(RoleSetup),
    /// An input.
    Input(ActorIn),
}

/// What an actor starts with.
#[derive(Drop)]
pub enum RoleSetup {
    /// The phone: its capabilities.
    Phone(Caps),
    /// A station: the encryption algorithms that it may choose, the first number that it draws, at
    /// least 1, and the cells of all stations, at least one.
    Station(Priority, u32, Cells),
    /// The core: the same. The first pair of NH and NCC that it sends for a chain has NCC 1.
    Core(Priority, u32, Cells),
    /// A core whose first pair has NCC 2 (TS 33.401 7.2.8.1.1): the same.
    StandardCore(Priority, u32, Cells),
}

/// Why a frame is not read.
#[derive(Clone, Copy, PartialEq, Eq, Debug)]
pub enum FrameFault {
    /// The input ended before the frame.
    Ended,
    /// The input ended inside the frame.
    Truncated,
    /// The length, which is above 4,096. Nothing after it was read.
    TooLong(u16),
    /// There is no such body for this role and place in the session: the offset of its first bad octet,
    /// counted from the kind; its end if octets are missing.
    BadBody(u16),
    /// A read of the source failed.
    ReadFault,
}

impl FrameFault {
    ghost use Rattle.std.specs.Prelude.{◌≡◌};
    ghost use Rattle.role_wire.specs.Frame.{frame_fault_number};

    /// The number of the fault, 1 to 5 in the order above.
    pub fn number(&self) -> u8
        ensures { result ≡ frame_fault_number self.now }
    {
        match self {
            FrameFault::Ended => 1,
            FrameFault::Truncated => 2,
            FrameFault::TooLong(_) => 3,
            FrameFault::BadBody(_) => 4,
            FrameFault::ReadFault => 5,
        }
    }
}
