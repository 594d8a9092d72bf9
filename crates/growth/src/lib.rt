//! Each call of the standard library by which a list, a text or a map grows, with one clause more: where it answers want of memory, std
//! refused room for so many items.
#![tactic(auto)]

mod commands;
mod lists;
mod maps;
mod texts;

pub use commands::{arg, command};
pub use lists::{collect, extend_from_slice, from_elem, from_slice, push, reserve, with_capacity};
pub use maps::insert;
pub use texts::{decode, encode, format, from_str};
