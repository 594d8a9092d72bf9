//! The protection of NAS messages and PDCP PDUs over plain octets of the caller (TS 24.301 4.4, TS 36.323 5.6 and 5.7), at a
//! COUNT that the caller names; the short MACs of a Service Request and of re-establishment; and the step of a phone's chain
//! on an NCC.
//!
//! It takes no memory: each output is a slice of the caller's, and stays as it was where the answer is an `Err`.
#![tactic(auto)]

mod agreeing;
mod am;
mod checks;
mod drb;
mod nas;
mod phone;
mod searching;
mod short_macs;
mod srb;
mod window;

pub use agreeing::agree;
pub use am::{AmFate, AmFault, AmFound, am_count, open_am};
pub use checks::is_checked;
pub use drb::{DrbKeys, Numbers, drb_count, open_drb, seal_drb};
pub use nas::{NasFound, NasHead, NasKeys, nas_head, nas_text, open_nas, seal_nas};
pub use phone::{Phone, Reached, reach};
pub use searching::{find_nas, find_service_request};
pub use short_macs::{
    ServiceFault, ServiceFound, check_service_request, service_request, short_mac_i,
};
pub use srb::{LONGEST_SDU, SrbFound, SrbKeys, open_srb, seal_srb, srb_count, srb_text};
pub use window::am_window;
