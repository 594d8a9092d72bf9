//! Tests of the whole system: a run of a phone, two stations and the core event by event, and one driven against peers
//! in memory. What they answer comes from an independent implementation.
#![tactic(auto)]

#[cfg(test)]
mod driven;
#[cfg(test)]
mod kept;
#[cfg(test)]
mod values;
#[cfg(test)]
mod worlds;
