//! The derivations, ciphers and protections for C, and for what calls C: each call is of one of the crates below, over plain
//! octets and structs, and answers a status. `include/lte_sec.h` is the same in C, call by call.
//!
//! No call takes memory, keeps anything or has a `requires`: what it is given it checks, and at a refusal nothing is changed.
#![tactic(auto)]

mod am;
mod ciphers;
mod derivations;
mod drb;
mod fault;
mod found;
mod nas;
mod phone;
mod ranges;
mod short_macs;
mod srb;
mod version;
