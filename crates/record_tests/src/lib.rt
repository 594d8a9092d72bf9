//! Tests of octets, records, events and frames: each kind read and written, and the fault of each that is none.
#![tactic(auto)]

#[cfg(test)]
mod events;
#[cfg(test)]
mod fields;
#[cfg(test)]
mod frames;
#[cfg(test)]
mod nas_records;
#[cfg(test)]
mod octets;
#[cfg(test)]
mod rrc_records;
#[cfg(test)]
mod values;
