//! The NAS COUNTs of a security context (TS 24.301 4.4.3.1): that of a sender, and that of a receiver.
#![tactic(auto)]

mod receiving;
mod sending;

pub use receiving::RxCount;
pub use sending::{CountSpent, LIMIT, TxCount};
