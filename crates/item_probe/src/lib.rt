//! The probe behind a scenario and each of its variants: its acts, its items, and what it finds.
#![tactic(auto)]

mod acts;
mod parts;
mod places;

pub use acts::acts_of;
pub use parts::{first_part, second_part, third_part};
