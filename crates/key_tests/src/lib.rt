//! Tests of keys: the KDF, the terms that keys are values of, the ladder, the bag of records, and the texts and audits that
//! are written of them.
#![tactic(auto)]

#[cfg(test)]
mod audits;
#[cfg(test)]
mod bags;
#[cfg(test)]
mod derivations;
#[cfg(test)]
mod ladders;
#[cfg(test)]
mod terms;
#[cfg(test)]
mod texts;
#[cfg(test)]
mod values;
