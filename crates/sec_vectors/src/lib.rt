//! Known answers of the algorithms, as tests over the crates that compute them.
#![tactic(auto)]

#[cfg(test)]
mod aes;
#[cfg(test)]
mod cmac;
#[cfg(test)]
mod eea2;
#[cfg(test)]
mod eia2;
#[cfg(test)]
mod keys;
#[cfg(test)]
mod values;
