//! Tests of the outside: its forms over memory, and the adapters over a reader and a writer.
#![tactic(auto)]

#[cfg(test)]
mod edges;
#[cfg(test)]
mod values;
