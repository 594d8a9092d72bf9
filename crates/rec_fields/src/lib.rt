//! Fields that the records of NAS, RRC, S1 and X2 share: what the octets at a place read as, with the
//! fault of each, and how a field is written. In `specs/`, the grammar of a record: its fields in order.
#![tactic(auto)]

mod reading;
mod writing;

pub use reading::{
    algs_at, caps_at, cell_at, from_one_at, ncc_at, octet_in, sized, station_at, text_of,
};
pub use writing::{algs_octet, list_of, put_cell, put_u16, put_u32};
