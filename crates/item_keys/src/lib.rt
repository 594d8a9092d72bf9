//! Where the keys of a run of items part: exactly where the phone takes a key eight or more steps ahead.
#![tactic(auto)]

mod laws;

pub use laws::{
    else_the_phone_takes_what_was_made, few_steps_keep_keys, keys_differ_exactly_far,
    keys_part_exactly_far,
};
