//! Tests of the reader of scenarios: fleets, two cores, and those of a seed. The first fault of each text that is none stands in examples/ends.
#![tactic(auto)]

#[cfg(test)]
mod scenarios;
#[cfg(test)]
mod values;
