//! A base station: its context of the phone, handovers at their source and at their target, and the
//! change of its key (TS 33.401 7.2.8 and 7.2.9.2, TS 36.331 5.3, TS 36.413, TS 36.423).
#![tactic(auto)]

mod acts;
mod admission;
mod air;
mod attempt;
mod context;
mod handover;
mod key_change;
mod orders;
mod origin;
mod prep_air;
mod renewal;
mod s1_records;
mod sends;
mod station;
mod step;
mod x2_records;

pub use station::Station;
