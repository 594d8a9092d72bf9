//! AES with keys of 16 octets (FIPS 197). `Aes128` encrypts blocks of 16 octets under one key; its
//! contract is the Cipher of the standard, as `specs/` states it on lists of numbers.
#![tactic(auto)]

mod aes128;
mod key_expansion;
mod round_tables;
mod s_box;
mod state;

pub use aes128::Aes128;
pub use round_tables::round_tables_are_column_products;
pub use s_box::{product_with_inverse_is_one, s_box_table_is_inverse_then_affine};
