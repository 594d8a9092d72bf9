//! Radio bearers (TS 36.323 5.6 and 5.7, TS 33.401 Annex B): the keys of the access stratum, the COUNTs
//! of a bearer, and the PDUs of signalling and data radio bearers, made and opened.
#![tactic(auto)]

mod counting;
mod drbs;
mod keys;
mod laws;
mod pdus;
mod srbs;

pub use counting::{LIMIT, count_from};
pub use drbs::Drb;
pub use keys::AsKeys;
pub use laws::{
    as_keys_are_carried, drb_sealed_opens, no_count_is_sent_twice, sending_counts_rise,
    srb_sealed_opens,
};
pub use pdus::{PdcpFault, PdcpOpened, PdcpSent};
pub use srbs::Srb;
