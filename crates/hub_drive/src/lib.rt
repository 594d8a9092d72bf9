//! A scenario against peers: each is told what its actor is told, and its replies are compared with
//! those of the local actors, while the report is written.
#![tactic(auto)]

mod calling;
mod driving;
mod faults;
mod happening;
mod laws;
mod setting_up;
mod starting;
mod telling;

pub use driving::drive;
pub use faults::DriveFault;
pub use laws::{all_are_stopped, calls_are_made_peer_by_peer};
pub use setting_up::set_up_all;
pub use starting::{peers_of, start_all, stop_all};
pub use telling::tell_all;
