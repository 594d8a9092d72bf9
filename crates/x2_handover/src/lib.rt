//! An attempt at an X2 or intra-station handover at its source (TS 33.401 7.2.8.4.1 and 7.2.8.4.2),
//! each state a type of its own: only an acknowledged attempt commands the phone, and only one that
//! has not commanded is cancelled.
#![tactic(auto)]

mod commanded;
mod opened;
mod orders;
mod ready;

pub use commanded::X2Commanded;
pub use opened::X2Open;
pub use orders::Order;
pub use ready::X2Ready;
