//! The keys of TS 33.401 Annex A from KASME on, each kind a type of its own.
#![tactic(auto)]

mod alg_key;
mod alg_type;
mod cell;
mod derived;
mod kasme;
mod kenb;
mod keyed_kasme;
mod nh;
mod star;

pub use alg_key::AlgKey;
pub use alg_type::AlgType;
pub use cell::{Cell, CellFault, GREATEST_EARFCN, GREATEST_PCI};
pub use derived::Derived;
pub use kasme::Kasme;
pub use kenb::{Kenb, KeyedKenb};
pub use keyed_kasme::KeyedKasme;
pub use nh::Nh;
pub use star::Star;
