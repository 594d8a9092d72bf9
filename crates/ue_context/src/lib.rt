//! A phone: its NAS contexts, its connection, handovers as it obeys them, and the change of its key (TS
//! 33.401 7.2.4, 7.2.8 and 7.2.9.2, TS 24.301 4.4, TS 36.331 5.3).
#![tactic(auto)]

mod acts;
mod air;
mod handover;
mod link;
mod nas;
mod phone;
mod radio;
mod starting;
mod step;
mod waiting;

pub use phone::Phone;
