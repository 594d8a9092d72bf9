//! Evidence that the standard library refused a growth. It has no function: what it has stands in `specs/Refusal.antt`.
#![tactic(auto)]
