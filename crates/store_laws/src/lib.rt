//! What the program keeps of a run: the rows of the ladder by number, with their holders, the records
//! in the bag and what shows a coincidence, beside the machine in octets (TS 33.401 Annex A and B).
//!
//! The definitions stand in `specs/`. Each function here has an empty body: its contract is a law.
#![tactic(auto)]

mod coincidences;
mod ladders;
mod records;

pub use coincidences::coincidences_are_shown;
pub use ladders::{derivations_of_a_run_can_be_added, ladders_go_together};
pub use records::records_are_found;
