//! Frames: how the inputs of an actor and its replies are written as octets and read, over one grammar.
#![tactic(auto)]

mod bodies;
mod fields;
mod frames;
mod inputs;
mod laws;
mod reading;
mod replies;
mod setups;
mod writing;

pub use frames::{Frame, FrameFault, FrameIn, GREATEST_BODY, RoleSetup};
pub use laws::{spelled_is_read, spelling_is_short};
pub use reading::read_frame;
pub use replies::{reply_frame, setup_reply};
pub use writing::{actor_frame, input_frame, setup_frame};
