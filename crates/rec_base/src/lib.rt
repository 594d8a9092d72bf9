//! The small types that every record and every cipher shares: direction, radio bearer, one use of a
//! key, bounded lists, the faults of a record, and numbers read from octets at a place.
#![tactic(auto)]

mod bearers;
mod bounded;
mod faults;
mod few;
mod fields;
mod headers;
mod uses;
mod ways;

pub use crate::bearers::Bearer;
pub use crate::bounded::{Bounded, Octets, ShortText, UserText, greatest_lengths};
pub use crate::faults::RecFault;
pub use crate::few::Few;
pub use crate::fields::{key_at, same_from_number, u8_at, u16_at, u32_at, written_reads_back};
pub use crate::headers::header;
pub use crate::uses::{Dir, Use};
pub use crate::ways::Way;
