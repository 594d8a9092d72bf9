//! The NAS security contexts of a phone and of a core (TS 24.301 4.4 and 5.4.3, TS 33.401 7.2.4.4): what
//! each does on NAS messages, and what it sends.
#![tactic(auto)]

mod acting;
mod context;
mod core_acting;
mod core_context;
mod core_judging;
mod core_nas;
mod core_partial;
mod judging;
mod opening;
mod partial;
mod phone;
mod protection;
mod reply;
mod telling;

pub use core_nas::CoreNas;
pub use nas_rec::NasRecord;
pub use phone::PhoneNas;
pub use reply::NasOut;
